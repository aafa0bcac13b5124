ghost use Rattle.std.specs.Prelude.{◌≡◌};
ghost use Rattle.base_io.specs.declared.end.RunErr.TheVariants.{Memory};

use scheme_data::{List, OutOfMemory, Text};
use std::fmt;
use thiserror::Error;

/// What a run finds that no sound program has.
#[derive(Clone, Copy, Debug, PartialEq, Eq)]
pub enum FaultKind {
    /// A word whose tag isn't the one that was wanted.
    Tag,
    /// A slot that its block doesn't have.
    Slot,
    /// An entry that no function has.
    Entry,
}

/// How a run ended.
#[derive(Drop, Debug)]
pub enum End {
    /// With a status.
    Ended(u8),
    /// By an error that nothing caught, with its status and its message.
    Raised(u8, Text),
    /// With no turn left.
    Spent,
    Fault(FaultKind),
}

/// How runs ended, in order.
pub type Ends = List<End>;

/// Why a run has no end.
#[derive(Clone, Copy, Debug, PartialEq, Eq, Error)]
pub enum RunErr {
    /// The sink failed.
    #[error("the output could not be written")]
    WriteFault,
    /// Memory was wanted and not given.
    #[error("out of memory")]
    Memory,
}

impl From<OutOfMemory> for RunErr {
    ghost from_gives = { λ _ e. e ≡ Memory };

    fn from(_: OutOfMemory) -> Self {
        RunErr::Memory
    }
}
