//! The program `bglc`: adapters over the real files, input and output, and `main`.
#![tactic(auto)]

mod adapters;
#[cfg(test)]
mod faults;
mod files;

use adapters::{StdSink, StdSource};
use files::StdFiles;
use scheme_data::{OutOfMemory, Text, TextList};
use session::{Answer, bglc, message, status};
use std::alloc::Global;
use std::env::FillError;
use std::io;
use std::process::ExitCode;
use std::rt::Env;

// The bytes of the word at a place, if there is one; they need not be UTF-8.
fn word_at(alloc: Global, rt: &HostRuntime, at: usize) -> Result<Option<Text>, OutOfMemory> {
    let mut room = Vec::new(alloc);
    for power in 8..usize::BITS {
        room.resize(1 << power, 0u8)?;
        match rt.arg(at, room.as_mut_slice()) {
            Ok(count) => {
                room.truncate(count);
                return Ok(Some(Text::from_bytes(alloc, room.as_slice())?));
            }
            Err(FillError::NotPresent) => return Ok(None),
            Err(FillError::TooLong) => {}
        }
    }
    Err(OutOfMemory)
}

// The words after the program's name.
fn words_of(alloc: Global, rt: &HostRuntime) -> Result<TextList, OutOfMemory> {
    let mut words = TextList::new(alloc);
    for at in 1..usize::MAX {
        let Some(word) = word_at(alloc, rt, at)? else {
            break;
        };
        words.push(word)?;
    }
    Ok(words)
}

// Says on standard error why not all was done.
fn tell(rt: &HostRuntime, answer: &Answer) {
    let Ok(text) = message(rt.alloc(), answer) else {
        let _ = rt.eprintln("memory");
        return;
    };
    let bytes = text.as_bytes();
    if !bytes.is_empty() {
        let _ = io::Write::write_all(&mut rt.stderr(), bytes);
        let _ = rt.eprintln("");
    }
}

fn main(rt: HostRuntime) -> ExitCode {
    let alloc = rt.alloc();
    let mut files = StdFiles { rt: &rt, faults: 0 };
    let mut input = StdSource {
        inner: rt.reader(),
        faults: 0,
    };
    let mut out = StdSink {
        inner: io::writer(&rt),
        faults: 0,
    };
    let answer = match words_of(alloc, &rt) {
        Ok(words) => bglc(alloc, words.as_slice(), &mut files, &mut input, &mut out),
        Err(OutOfMemory) => Answer::Memory,
    };
    tell(&rt, &answer);
    ExitCode::from(status(&answer))
}
