use scheme_data::{LimitKind, OutOfMemory, Place};
use std::alloc::AllocError;

/// Why rules, or a use of them, are refused.
#[derive(Clone, Copy, Debug, PartialEq, Eq)]
pub enum RulesErr {
    /// The form here is no definition of rules.
    BadRules(Place),
    /// The use here matches no rule.
    NoRule(Place),
    /// A use would become more data than may be.
    Limit(LimitKind),
    /// Memory was wanted and not given.
    Memory,
}

impl From<OutOfMemory> for RulesErr {
    ghost use Rattle.std.specs.Prelude.{◌≡◌};
    ghost use Rattle.syntax_rules.specs.declared.error.RulesErr.TheVariants.{Memory};

    ghost from_gives = { λ _ e. e ≡ Memory };

    fn from(_: OutOfMemory) -> Self {
        RulesErr::Memory
    }
}

impl From<AllocError> for RulesErr {
    ghost use Rattle.std.specs.Prelude.{◌≡◌};
    ghost use Rattle.syntax_rules.specs.declared.error.RulesErr.TheVariants.{Memory};

    ghost from_gives = { λ _ e. e ≡ Memory };

    fn from(_: AllocError) -> Self {
        RulesErr::Memory
    }
}
