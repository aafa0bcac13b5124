ghost use Rattle.std.specs.Prelude.{◌≡◌};
ghost use Rattle.core_forms.specs.declared.error.ExpandErr.TheVariants.{Memory};

use scheme_data::{LimitKind, OutOfMemory, Place};
use std::alloc::{AllocError, AllocFailed};

/// Why a module isn't expanded.
#[derive(Clone, Copy, Debug, PartialEq, Eq)]
pub enum ExpandErr {
    /// The rules of a macro aren't in the form of `syntax-rules`.
    BadRules(Place),
    /// A use of a macro matches none of its rules.
    NoRule(Place),
    /// A form is neither of the core nor a derived one.
    Form(Place),
    /// There are more uses of macros, more data in their results, or more lists in each other than may be.
    Limit(LimitKind),
    /// Memory was wanted and not given.
    Memory,
}

impl From<OutOfMemory> for ExpandErr {
    ghost from_gives = { λ _ e. e ≡ Memory };

    fn from(_: OutOfMemory) -> Self {
        ExpandErr::Memory
    }
}

impl From<AllocError> for ExpandErr {
    ghost from_gives = { λ _ e. e ≡ Memory };

    fn from(_: AllocError) -> Self {
        ExpandErr::Memory
    }
}

impl<T: Drop> From<AllocFailed<T>> for ExpandErr {
    ghost from_gives = { λ _ e. e ≡ Memory };

    fn from(_: AllocFailed<T>) -> Self {
        ExpandErr::Memory
    }
}
