// What scripts answer where files and output fail.
ghost use Rattle.std.specs.Prelude.{None};

use base_io::{Failed, MemFiles, MemSink, MemSource, Sink};
use scheme_data::{CallList, OutOfMemory, Text, TextList};
use session::{Answer, bglc, message, status};
use std::alloc::Global;

const HELLO: &[u8] = b"(module hello (main go)) (define (go args) (display (+ 40 2)) (newline))";

const SCRIPT: &[u8] = b"compile h.scm h.o\nlink h.c h.o\nrun h.c 1\n";

/// A sink that takes one byte a call, so many times.
#[derive(Drop)]
struct Trickle {
    bytes: Vec<u8>,
    calls: u64,
    faults: u64,
}

impl Sink for Trickle {
    ghost written = { λ s. None };

    ghost faults = { λ s. s.faults };

    fn put(&mut self, bytes: &[u8]) -> Result<usize, Failed> {
        if self.calls > 0 && self.bytes.push(bytes[0]).is_ok() {
            self.calls -= 1;
            return Ok(1);
        }
        self.faults = self.faults.saturating_add(1);
        Err(Failed)
    }
}

impl Trickle {
    fn new(alloc: Global, calls: u64) -> Trickle {
        Trickle {
            bytes: Vec::new(alloc),
            calls,
            faults: 0,
        }
    }
}

/// Does the script over files of which the call of a number fails; 0 for none.
fn does<K: Sink>(alloc: Global, failing: u64, out: &mut K) -> Result<Answer, OutOfMemory> {
    let mut fails = CallList::new(alloc);
    fails.push(failing)?;
    let mut files = MemFiles::new(alloc, fails);
    let source = Text::from_bytes(alloc, HELLO)?;
    files.place(Text::from_bytes(alloc, b"h.scm")?, source)?;
    let script = Text::from_bytes(alloc, SCRIPT)?;
    files.place(Text::from_bytes(alloc, b"s")?, script)?;
    let mut input = MemSource::new(Text::new(alloc), CallList::new(alloc));
    let mut words = TextList::new(alloc);
    words.push(Text::from_bytes(alloc, b"do")?)?;
    words.push(Text::from_bytes(alloc, b"s")?)?;
    Ok(bglc(alloc, words.as_slice(), &mut files, &mut input, out))
}

#[test]
fn each_call_on_the_files_fails_in_turn(rt: HostRuntime) -> Result<(), OutOfMemory> {
    let alloc = rt.alloc();
    let told: [&[u8]; 6] = [
        b"file fault s",
        b"file fault h.scm",
        b"file fault h.o",
        b"file fault h.o",
        b"file fault h.c",
        b"file fault h.c",
    ];
    for (i, text) in told.iter().enumerate() {
        let mut out = MemSink::new(alloc, 100, CallList::new(alloc))?;
        let answer = does(alloc, i as u64 + 1, &mut out)?;
        assert_eq!(rt; status(&answer), 243);
        assert!(rt; message(alloc, &answer)?.as_bytes() == *text);
        assert!(rt; out.bytes().is_empty());
    }
    Ok(())
}

#[test]
fn output_goes_out_a_byte_at_a_time(rt: HostRuntime) -> Result<(), OutOfMemory> {
    let mut out = Trickle::new(rt.alloc(), 100);
    let answer = does(rt.alloc(), 0, &mut out)?;
    assert_eq!(rt; status(&answer), 0);
    assert_eq!(rt; out.bytes.as_slice(), b"42\n".as_slice());
    Ok(())
}

#[test]
fn second_write_fails_after_one_byte(rt: HostRuntime) -> Result<(), OutOfMemory> {
    let mut out = Trickle::new(rt.alloc(), 1);
    let answer = does(rt.alloc(), 0, &mut out)?;
    assert_eq!(rt; status(&answer), 246);
    assert_eq!(rt;
        message(rt.alloc(), &answer)?.as_bytes(),
        b"write fault".as_slice()
    );
    assert_eq!(rt; out.bytes.as_slice(), b"4".as_slice());
    Ok(())
}
