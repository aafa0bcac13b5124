ghost use Rattle.std.specs.Prelude.{◌≡◌, ◌+◌, ◌<◌, ◌≤◌, ◌⊎◌, ◌↔◌, [], length, take, min, IfOk, IsErr, is_err, Contains, if◌then◌else◌};
ghost use Rattle.std.specs.Io.KnownBytes.{ReadConsumes, WriteAppends};
ghost use Rattle.base_io.specs.Causes.{HasCause};
ghost use Rattle.base_io.specs.Memory.{next};

use crate::counts::Counts;
use crate::{Failed, Sink, Source};
use scheme_data::{CallList, OutOfMemory, Text};
use std::alloc::Global;
use std::marker::Model;

/// A source in memory, which fails exactly at the listed calls, counted from 1.
#[derive(Drop)]
pub struct MemSource {
    content: Text,
    at: usize,
    counts: Counts,
}

impl Model for MemSource {
    ghost use Rattle.std.specs.Prelude.{◌≤◌, length, drop};
    ghost use Rattle.base_io.specs.Memory.{SourceState};

    ghost Value = { SourceState };

    ghost view = { λ s. record { left = drop s.at s.content; calls = s.counts.calls; fails = s.counts.fails; faults = s.counts.faults } };

    ghost invariant = { λ s. s.at ≤ length s.content };
}

impl MemSource {
    /// A source of all these bytes, before the first call.
    pub fn new(content: Text, fails: CallList) -> MemSource
        ensures { result ≡ record { left = content; calls = 0; fails = fails; faults = 0 } }
    {
        MemSource {
            content,
            at: 0,
            counts: Counts::new(fails),
        }
    }
}

impl Source for MemSource {
    ghost use Rattle.std.specs.Prelude.{Some};

    ghost left = { λ s. Some s.left };

    ghost faults = { λ s. s.faults };

    fn read(&mut self, buf: &mut [u8]) -> Result<usize, Failed>
        requires { 0 < length buf.old }
        ensures most { IfOk result (λ count. count ≤ length buf.new) }
        ensures bytes { ReadConsumes (Some self.old.left) (Some self.new.left) result buf.new }
        ensures cause { HasCause self.old.faults self.new.faults result }
        ensures full { IfOk result (λ count. count ≡ min (length self.old.left) (length buf.old)) }
        ensures listed { IsErr result ↔ Contains self.old.fails (next self.old.calls) }
        ensures calls { self.new.calls ≡ next self.old.calls }
        ensures fails { self.new.fails ≡ self.old.fails }
        ensures faults { self.new.faults ≡ (if is_err result then next self.old.faults else self.old.faults) }
    {
        if self.counts.fails_now() {
            return Err(Failed);
        }
        let rest = &self.content.as_bytes()[self.at..];
        let count = fill(buf, rest);
        self.at += count;
        Ok(count)
    }
}

/// A sink in memory, which fails exactly at the listed calls, counted from 1, and where no room is left.
#[derive(Drop)]
pub struct MemSink {
    bytes: Vec<u8>,
    room: u64,
    counts: Counts,
}

impl Model for MemSink {
    ghost use Rattle.std.specs.Prelude.{◌≤◌, ◌-◌, vec_len, vec_capacity};
    ghost use Rattle.base_io.specs.Memory.{SinkState};

    ghost Value = { SinkState };

    ghost view = { λ s. record { written = s.bytes.items; room = s.room - vec_len s.bytes; calls = s.counts.calls; fails = s.counts.fails; faults = s.counts.faults } };

    ghost invariant = { λ s. (vec_len s.bytes ≤ s.room) × (s.room ≤ vec_capacity s.bytes) };
}

impl MemSink {
    /// A sink with room for so many bytes, before the first call.
    /// An `OutOfMemory` comes only for want of memory: it is all taken here, and none by `put`.
    pub fn new(alloc: Global, room: u64, fails: CallList) -> Result<MemSink, OutOfMemory>
        ensures { IfOk result (λ sink. sink ≡ record { written = []; room = room; calls = 0; fails = fails; faults = 0 }) }
    {
        let bytes = Vec::with_capacity(alloc, room as usize)?;
        Ok(MemSink {
            bytes,
            room,
            counts: Counts::new(fails),
        })
    }

    /// The bytes that were written.
    pub fn bytes(&self) -> &[u8]
        ensures { result.now ≡ self.now.written }
    {
        &self.bytes
    }
}

impl Sink for MemSink {
    ghost use Rattle.std.specs.Prelude.{Some};

    ghost written = { λ s. Some s.written };

    ghost faults = { λ s. s.faults };

    fn put(&mut self, bytes: &[u8]) -> Result<usize, Failed>
        requires { 0 < length bytes.now }
        ensures least { IfOk result (λ count. 1 ≤ count) }
        ensures most { IfOk result (λ count. count ≤ length bytes.now) }
        ensures bytes { WriteAppends (Some self.old.written) (Some self.new.written) result bytes.now }
        ensures cause { HasCause self.old.faults self.new.faults result }
        ensures full { IfOk result (λ count. count ≡ min self.old.room (length bytes.now)) }
        ensures room { self.new.room + length self.new.written ≡ self.old.room + length self.old.written }
        ensures listed { IsErr result ↔ (Contains self.old.fails (next self.old.calls) ⊎ (self.old.room ≡ 0)) }
        ensures calls { self.new.calls ≡ next self.old.calls }
        ensures fails { self.new.fails ≡ self.old.fails }
        ensures faults { self.new.faults ≡ (if is_err result then next self.old.faults else self.old.faults) }
    {
        if self.counts.fails_now() {
            return Err(Failed);
        }
        let room = self.room as usize - self.bytes.len();
        if room == 0 {
            self.counts.fault();
            return Err(Failed);
        }
        let count = room.min(bytes.len());
        self.bytes.extend_from_slice(&bytes[..count]).unwrap();
        Ok(count)
    }
}

// Copies as many bytes as there are and as there is room for.
fn fill(buf: &mut [u8], bytes: &[u8]) -> usize
    ensures count { result ≡ min (length bytes.now) (length buf.old) }
    ensures copied { take result buf.new ≡ take result bytes.now }
{
    let count = bytes.len().min(buf.len());
    buf[..count].copy_from_slice(&bytes[..count]);
    count
}
