ghost use Rattle.std.specs.Prelude.{◌≡◌};

use scheme_data::OutOfMemory;
use std::alloc::AllocFailed;

/// Why reading stops: no tree has the text, or memory was wanted and not given.
#[derive(Clone, Copy, Debug, PartialEq, Eq)]
pub enum Stop {
    Wrong,
    Memory,
}

impl From<OutOfMemory> for Stop {
    ghost use Rattle.c_read.specs.declared.stop.Stop.TheVariants.{Memory};

    ghost from_gives = { λ _ e. e ≡ Memory };

    fn from(_: OutOfMemory) -> Self {
        Stop::Memory
    }
}

impl<T: Drop> From<AllocFailed<T>> for Stop {
    ghost use Rattle.c_read.specs.declared.stop.Stop.TheVariants.{Memory};

    ghost from_gives = { λ _ e. e ≡ Memory };

    fn from(_: AllocFailed<T>) -> Self {
        Stop::Memory
    }
}
