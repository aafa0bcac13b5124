ghost use Rattle.std.specs.Prelude.{◌≡◌, [], ◌∷◌, ◌++◌, IfOk, OnOk, OnErr, IsTrue, ◌↔◌};

use smallvec::SmallVec;
use std::alloc::{AllocError, AllocFailed, Global};
use std::fmt;
use std::marker::Model;
use thiserror::Error;

/// Memory was wanted and not given.
#[derive(Clone, Copy, Debug, PartialEq, Eq, Error)]
#[error("out of memory")]
pub struct OutOfMemory;

impl From<AllocError> for OutOfMemory {
    fn from(_: AllocError) -> Self {
        OutOfMemory
    }
}

impl<T: Drop> From<AllocFailed<T>> for OutOfMemory {
    fn from(_: AllocFailed<T>) -> Self {
        OutOfMemory
    }
}

/// A list of bytes. Up to 24 of them lie in the value itself, since names are short and there are many.
#[derive(Drop, Debug)]
pub struct Text {
    bytes: SmallVec<u8, 24>,
}

impl Model for Text {
    ghost use Rattle.std.specs.Prelude.{ℕ, List};
    ghost use Rattle.std.specs.Coded.{coded_list, coded_ℕ};

    ghost Value = { List ℕ };

    ghost coded = { coded_list coded_ℕ };

    ghost view = { λ t. t.bytes.items };
}

impl Text {
    /// The empty text.
    pub fn new(alloc: Global) -> Text
        ensures { result ≡ [] }
    {
        Text {
            bytes: SmallVec::new(alloc),
        }
    }

    /// A text of these bytes.
    pub fn from_bytes(alloc: Global, bytes: &[u8]) -> Result<Text, OutOfMemory>
        ensures { IfOk result (λ text. text ≡ bytes.now) }
    {
        Ok(Text {
            bytes: SmallVec::from_slice(alloc, bytes)?,
        })
    }

    /// Its bytes.
    pub fn as_bytes(&self) -> &[u8]
        ensures { result.now ≡ self.now }
    {
        self.bytes.as_slice()
    }

    /// Adds a byte at the end.
    pub fn push(&mut self, byte: u8) -> Result<(), OutOfMemory>
        ensures ok { OnOk result (self.new ≡ self.old ++ byte ∷ []) }
        ensures err { OnErr result (self.new ≡ self.old) }
    {
        self.bytes.push(byte)?;
        Ok(())
    }

    /// Adds bytes at the end.
    pub fn extend(&mut self, bytes: &[u8]) -> Result<(), OutOfMemory>
        ensures ok { OnOk result (self.new ≡ self.old ++ bytes.now) }
        ensures err { OnErr result (self.new ≡ self.old) }
    {
        self.bytes.extend_from_slice(bytes)?;
        Ok(())
    }

    /// Takes all bytes out.
    pub fn clear(&mut self)
        ensures { self.new ≡ [] }
    {
        self.bytes.clear();
    }

    /// A copy of it.
    pub fn copy(&self, alloc: Global) -> Result<Text, OutOfMemory>
        ensures { IfOk result (λ text. text ≡ self.now) }
    {
        Text::from_bytes(alloc, self.as_bytes())
    }

    /// Whether the bytes are the same.
    pub fn is(&self, other: &Text) -> bool
        ensures { IsTrue result ↔ (self.now ≡ other.now) }
    {
        self.as_bytes() == other.as_bytes()
    }
}
