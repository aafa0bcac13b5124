// What goes to the sink.
ghost use Rattle.std.specs.Prelude.{◌≡◌, ◌≤◌};
ghost use Rattle.base_io.specs.Causes.{Rose};
ghost use Rattle.c_machine.specs.Added.{Writes};
ghost use Rattle.c_machine.specs.Words.{word_text};

use crate::stepping::Flow;
use crate::words::{fixnum, text_of_constant};
use base_io::{Sink, put_all};
use scheme_data::{NumberText, is_long};

/// Writes all of these bytes.
#[inline(never)]
pub fn write_all<K: Sink>(out: &mut K, bytes: &[u8]) -> Flow
    ensures does { Writes bytes.now result (K.written out.old) (K.written out.new) }
    ensures later { K.faults out.old ≤ K.faults out.new }
    ensures cause { result ≡ Flow.WriteFault → Rose (K.faults out.old) (K.faults out.new) }
{
    match put_all(out, bytes) {
        Ok(()) => Flow::Going,
        Err(_) => Flow::WriteFault,
    }
}

/// Writes a word as `display` prints it.
#[inline(never)]
pub fn display<K: Sink>(out: &mut K, w: u64) -> Flow
    ensures does { Writes (word_text w) result (K.written out.old) (K.written out.new) }
    ensures later { K.faults out.old ≤ K.faults out.new }
    ensures cause { result ≡ Flow.WriteFault → Rose (K.faults out.old) (K.faults out.new) }
{
    if is_long(w) {
        let mut room = NumberText::new();
        return write_all(out, room.format(fixnum(w)));
    }
    write_all(out, text_of_constant(w))
}
