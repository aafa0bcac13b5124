ghost use Rattle.std.specs.Prelude.{◌≡◌, ℕ, ◌≤◌, IsErrOf};
ghost use Rattle.std.specs.declared.option.Option.{Option};
ghost use Rattle.base_io.specs.Causes.{Rose};
ghost use Rattle.base_io.specs.Contents.{Contents, Reads, Writes};

use scheme_data::Text;
use std::fmt;
use thiserror::Error;

/// Whether a name is there.
#[derive(Clone, Copy, Debug, PartialEq, Eq)]
pub enum Found {
    Yes,
    No,
}

/// Why a file was not read or written.
#[derive(Clone, Copy, Debug, PartialEq, Eq, Error)]
pub enum FileErr {
    /// The files failed.
    #[error("the file could not be read or written")]
    Failed,
    /// Memory was wanted and not given.
    #[error("out of memory")]
    Memory,
}

/// Files by name.
pub trait Files {
    /// What they hold, where they tell.
    ghost contents: { Self → Option Contents };

    /// How often they have failed, which never falls.
    ghost faults: { Self → ℕ };

    /// Puts a file's bytes in place of what `into` held, and gives `No` where no file has that name.
    /// A `Failed` comes only where the files failed in this call, and a `Memory` only for want of memory.
    /// What the files hold stays, whatever the answer.
    fn read(&mut self, name: &Text, into: &mut Text) -> Result<Found, FileErr>
        ensures reads { Reads (contents self.old) name.now into.new result }
        ensures same { contents self.new ≡ contents self.old }
        ensures later { faults self.old ≤ faults self.new }
        ensures failed { IsErrOf result FileErr.Failed → Rose (faults self.old) (faults self.new) };

    /// Makes these bytes what the file of that name holds.
    /// A `Failed` comes only where the files failed in this call, and a `Memory` only for want of memory.
    /// After either the file may hold any bytes or be gone, and all others hold what they held.
    fn write(&mut self, name: &Text, bytes: &[u8]) -> Result<(), FileErr>
        ensures writes { Writes (contents self.old) (contents self.new) name.now bytes.now result }
        ensures later { faults self.old ≤ faults self.new }
        ensures failed { IsErrOf result FileErr.Failed → Rose (faults self.old) (faults self.new) };
}
