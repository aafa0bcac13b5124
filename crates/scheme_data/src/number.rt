ghost use Rattle.std.specs.Prelude.{◌≡◌, ◌++◌, OnOk, OnErr};
ghost use Rattle.scheme_data.specs.Decimal.{decimal_text, number_text};

use crate::{OutOfMemory, Text};
use itoa::Buffer;

/// Room for the text of one number.
#[derive(Drop)]
pub struct NumberText {
    buffer: Buffer,
}

impl NumberText {
    /// Room that takes no memory.
    pub fn new() -> NumberText {
        NumberText {
            buffer: Buffer::new(),
        }
    }

    /// The number in decimal.
    pub fn format(&mut self, n: i64) -> &[u8]
        ensures { result.now ≡ number_text n }
    {
        self.buffer.format(n).as_bytes()
    }

    /// A number from 0 on in decimal.
    pub fn format_unsigned(&mut self, n: u64) -> &[u8]
        ensures { result.now ≡ decimal_text n }
    {
        self.buffer.format(n).as_bytes()
    }
}

/// Adds a number in decimal at the end.
pub fn push_number(text: &mut Text, n: i64) -> Result<(), OutOfMemory>
    ensures ok { OnOk result (text.new ≡ text.old ++ number_text n) }
    ensures err { OnErr result (text.new ≡ text.old) }
{
    let mut room = NumberText::new();
    text.extend(room.format(n))
}

/// Adds a number from 0 on in decimal at the end.
pub fn push_decimal(text: &mut Text, n: u64) -> Result<(), OutOfMemory>
    ensures ok { OnOk result (text.new ≡ text.old ++ decimal_text n) }
    ensures err { OnErr result (text.new ≡ text.old) }
{
    let mut room = NumberText::new();
    text.extend(room.format_unsigned(n))
}
