// The real files. They tell no content, and count their faults.
ghost use Rattle.std.specs.Prelude.{None};

use base_io::{FileErr, Files, Found};
use scheme_data::Text;
use std::io::{ErrorKind, Read, Write};
use std::{fs, rt};

// No content is longer than 1 GiB.
const LONGEST: usize = 1 << 30;

/// Files by their paths.
#[derive(Drop)]
pub struct StdFiles<'a, R> {
    pub rt: &'a R,
    pub faults: u64,
}

enum Reading {
    Whole,
    Missing,
    Failed,
    Memory,
}

// Takes a piece of a file, or says how the reading ends.
fn take_piece(into: &mut Text, piece: &[u8]) -> Option<Reading> {
    if piece.is_empty() {
        return Some(Reading::Whole);
    }
    let room = LONGEST.saturating_sub(into.as_bytes().len());
    if piece.len() > room {
        return Some(Reading::Failed);
    }
    match into.extend(piece) {
        Ok(()) => None,
        Err(_) => Some(Reading::Memory),
    }
}

fn read_file<R: rt::Files>(rt: &R, name: &Text, into: &mut Text) -> Reading {
    into.clear();
    let Ok(path) = str::from_utf8(name.as_bytes()) else {
        return Reading::Failed;
    };
    let mut file = match fs::open(rt, path) {
        Ok(file) => file,
        Err(e) if e.kind() == ErrorKind::NotFound => return Reading::Missing,
        Err(_) => return Reading::Failed,
    };
    let mut buf = [0u8; 4096];
    for _ in 0..u64::MAX {
        let Ok(count) = file.read(&mut buf) else {
            return Reading::Failed;
        };
        if let Some(end) = take_piece(into, &buf[..count]) {
            return end;
        }
    }
    Reading::Failed
}

fn write_file<R: rt::Files>(rt: &R, name: &Text, bytes: &[u8]) -> bool {
    let Ok(path) = str::from_utf8(name.as_bytes()) else {
        return false;
    };
    let Ok(mut file) = fs::create(rt, path) else {
        return false;
    };
    let mut rest = bytes;
    while !rest.is_empty() {
        match file.write(rest) {
            Ok(count) if count > 0 => rest = &rest[count..],
            _ => return false,
        }
    }
    file.flush().is_ok()
}

impl<'a, R: rt::Files> Files for StdFiles<'a, R> {
    ghost contents = { λ f. None };

    ghost faults = { λ f. f.faults };

    fn read(&mut self, name: &Text, into: &mut Text) -> Result<Found, FileErr> {
        match read_file(self.rt, name, into) {
            Reading::Whole => Ok(Found::Yes),
            Reading::Missing => Ok(Found::No),
            Reading::Memory => Err(FileErr::Memory),
            Reading::Failed => {
                self.faults = self.faults.saturating_add(1);
                Err(FileErr::Failed)
            }
        }
    }

    fn write(&mut self, name: &Text, bytes: &[u8]) -> Result<(), FileErr> {
        if write_file(self.rt, name, bytes) {
            return Ok(());
        }
        self.faults = self.faults.saturating_add(1);
        Err(FileErr::Failed)
    }
}

#[cfg(test)]
mod tests {
    use super::StdFiles;
    use base_io::{FileErr, Files, Found};
    use scheme_data::{OutOfMemory, Text};
    use std::alloc::Global;
    use std::test::Fail;

    fn text(alloc: Global, bytes: &[u8]) -> Result<Text, OutOfMemory> {
        Text::from_bytes(alloc, bytes)
    }

    #[test]
    fn a_read_empties_its_buffer_and_a_missing_file_is_no_fault(
        rt: HostRuntime,
    ) -> Result<(), Fail> {
        let alloc = rt.alloc();
        let mut files = StdFiles { rt: &rt, faults: 0 };
        let name = text(alloc, b"adapter_test.txt")?;
        let mut into = text(alloc, b"old")?;
        files.write(&name, b"content")?;
        assert!(rt; files.read(&name, &mut into)? == Found::Yes);
        assert_eq!(rt; into.as_bytes(), b"content".as_slice());
        assert!(rt; files.read(&text(alloc, b"no such file")?, &mut into)? == Found::No);
        assert_eq!(rt; files.faults, 0);
        assert!(rt; files.read(&text(alloc, b"\xff")?, &mut into) == Err(FileErr::Failed));
        assert_eq!(rt; files.faults, 1);
        Ok(())
    }
}
