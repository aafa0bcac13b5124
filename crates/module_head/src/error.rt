ghost use Rattle.std.specs.Prelude.{◌≡◌};

use scheme_data::{OutOfMemory, Place, Text};

/// Why a head isn't read.
#[derive(Debug, Drop)]
pub enum HeadErr {
    /// The innermost datum that is no module form, clause or item; 1:1 where there is no datum.
    Header(Place),
    /// A name that is declared a second time.
    Duplicate(Text),
    /// Memory was wanted and not given.
    Memory,
}

impl From<OutOfMemory> for HeadErr {
    ghost use Rattle.module_head.specs.declared.error.HeadErr.TheVariants.{Memory};

    ghost from_gives = { λ _ e. e ≡ Memory };

    fn from(_: OutOfMemory) -> Self {
        HeadErr::Memory
    }
}
