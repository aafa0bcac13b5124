ghost use Rattle.std.specs.Prelude.{◌≡◌, ◌+◌};
ghost use Rattle.core_forms.specs.Names.{with_names};
ghost use Rattle.core_forms.specs.Code.{OkOrMemory};

use crate::build::{CORE_MARK, FIRST_NEW};
use crate::error::ExpandErr;

/// How many uses of macros may be expanded in a module.
pub const MOST_EXPANSIONS: u32 = 20_000;

/// How many data may stand in the results of these, together.
pub const MOST_FILLED: u32 = 1_000_000;

/// How deep lists may nest in a result, or in a core form.
pub const DEEPEST: u32 = 1_000;

/// How many new names may be made, so that their marks lie below that of words for sure.
const MOST_NAMES: u32 = CORE_MARK - FIRST_NEW;

/// How many uses of macros were expanded, how many data their results have together, and how many new names were made.
#[derive(Clone, Copy, Debug, PartialEq, Eq)]
pub struct Counts {
    pub expansions: u32,
    pub filled: u32,
    pub names: u32,
}

impl Counts {
    /// The mark of the first of so many new names.
    pub fn take_names(&mut self, count: u32) -> Result<u32, ExpandErr>
        ensures first { OkOrMemory result (λ first. first ≡ 20001 + self.old.names) }
        ensures counted { OkOrMemory result (λ first. self.new ≡ with_names self.old count) }
    {
        let Some(names) = self.names.checked_add(count) else {
            return Err(ExpandErr::Memory);
        };
        if names > MOST_NAMES {
            return Err(ExpandErr::Memory);
        }
        let first = FIRST_NEW + self.names;
        self.names = names;
        Ok(first)
    }
}
