// The real input and output. They tell no content, and count their faults.
ghost use Rattle.std.specs.Prelude.{None};

use base_io::{Failed, Sink, Source};
use std::io::{Read, Write};

/// A source over a reader.
#[derive(Drop)]
pub struct StdSource<R> {
    pub inner: R,
    pub faults: u64,
}

impl<R: Read> Source for StdSource<R> {
    ghost left = { λ s. None };

    ghost faults = { λ s. s.faults };

    fn read(&mut self, buf: &mut [u8]) -> Result<usize, Failed> {
        match self.inner.read(buf) {
            Ok(count) => Ok(count),
            Err(_) => {
                self.faults = self.faults.saturating_add(1);
                Err(Failed)
            }
        }
    }
}

/// A sink over a writer. A write that takes nothing, and a flush that fails, is a fault.
#[derive(Drop)]
pub struct StdSink<W> {
    pub inner: W,
    pub faults: u64,
}

impl<W: Write> Sink for StdSink<W> {
    ghost written = { λ s. None };

    ghost faults = { λ s. s.faults };

    fn put(&mut self, bytes: &[u8]) -> Result<usize, Failed> {
        match self.inner.write(bytes) {
            Ok(count) if count > 0 && self.inner.flush().is_ok() => Ok(count),
            _ => {
                self.faults = self.faults.saturating_add(1);
                Err(Failed)
            }
        }
    }
}

#[cfg(test)]
mod tests {
    use super::{StdSink, StdSource};
    use base_io::{Failed, Sink, Source};

    #[test]
    fn source_gives_the_bytes_and_then_none(rt: HostRuntime) -> Result<(), Failed> {
        let mut source = StdSource {
            inner: b"abc".as_slice(),
            faults: 0,
        };
        let mut buf = [0u8; 2];
        assert_eq!(rt; source.read(&mut buf)?, 2);
        assert_eq!(rt; buf, *b"ab");
        assert_eq!(rt; source.read(&mut buf)?, 1);
        assert_eq!(rt; source.read(&mut buf)?, 0);
        assert_eq!(rt; source.faults, 0);
        Ok(())
    }

    #[test]
    fn sink_writes_all_that_it_says(rt: HostRuntime) -> Result<(), Failed> {
        let mut sink = StdSink {
            inner: Vec::new(rt.alloc()),
            faults: 0,
        };
        assert_eq!(rt; sink.put(b"ab")?, 2);
        assert_eq!(rt; sink.put(b"c")?, 1);
        assert_eq!(rt; sink.inner.as_slice(), b"abc".as_slice());
        assert_eq!(rt; sink.faults, 0);
        Ok(())
    }
}
