use scheme_data::{LimitKind, OutOfMemory, Place};

/// Why a text isn't read.
#[derive(Clone, Copy, Debug, PartialEq, Eq)]
pub enum ReadErr {
    /// No data are spelled so: at the first token that no data could have there, or at the end of a text that isn't whole.
    Syntax(Place),
    /// There are more bytes than may be, and the place is that of the first; or the opening here is within too many others.
    Limit(LimitKind, Place),
    /// Memory was wanted and not given.
    Memory,
}

impl From<OutOfMemory> for ReadErr {
    ghost use Rattle.std.specs.Prelude.{◌≡◌};
    ghost use Rattle.scheme_read.specs.declared.error.ReadErr.TheVariants.{Memory};

    ghost from_gives = { λ _ e. e ≡ Memory };

    fn from(_: OutOfMemory) -> Self {
        ReadErr::Memory
    }
}
