// What a use of a macro becomes, within the limits.

ghost use Rattle.std.specs.Prelude.{◌≡◌, ◌-◌, ◌<◌};
ghost use Rattle.scheme_data.specs.Forms.{form};
ghost use Rattle.syntax_rules.specs.Views.{the_macro};
ghost use Rattle.core_forms.specs.Bodies.{used};
ghost use Rattle.expansion_steps.specs.Heads.{refusal_of, spent_by};
ghost use Rattle.expansion_steps.specs.Steps.{UsedAs, counted_within};

use core_forms::{
    Counts, DEEPEST, ExpandErr, MOST_EXPANSIONS, MOST_FILLED, left_after, nests_within,
};
use scheme_data::{Datum, LimitKind};
use std::alloc::Global;
use syntax_rules::{Rules, RulesErr};

/// What a use of a macro becomes. Where it becomes nothing, nothing is counted.
pub fn expand_use(
    alloc: Global,
    counts: &mut Counts,
    rules: &Rules,
    datum: &Datum,
) -> Result<Datum, ExpandErr>
    ensures { UsedAs (used (the_macro rules.now) counts.old (form datum.now)) counts.old result counts.new }
{
    let Some(mark) = counts.expansions.checked_add(1) else {
        return Err(ExpandErr::Memory);
    };
    let left = MOST_FILLED.saturating_sub(counts.filled);
    let made = rules.expand_once(alloc, datum, mark, left as u64);
    if counts.expansions >= MOST_EXPANSIONS {
        return Err(used_up(made));
    }
    match made {
        Err(e) => Err(refusal(e)),
        Ok(made) => counted(counts, made, left),
    }
}

/// A result within the limits is counted, where so many data may still be made.
fn counted(counts: &mut Counts, datum: Datum, left: u32) -> Result<Datum, ExpandErr>
    requires rest { left ≡ 1000000 - counts.now.filled }
    requires uses { counts.now.expansions < 20000 }
    ensures { UsedAs (counted_within left counts.old (form datum)) counts.old result counts.new }
{
    let Some(left) = left_after(&datum, left) else {
        return Err(ExpandErr::Limit(LimitKind::Filled));
    };
    if !nests_within(&datum, DEEPEST) {
        return Err(ExpandErr::Limit(LimitKind::Depth));
    }
    counts.expansions += 1;
    counts.filled = MOST_FILLED - left;
    Ok(datum)
}

/// No use may be expanded any more; one that matches no rule stays that.
fn used_up(made: Result<Datum, RulesErr>) -> ExpandErr
    ensures { result ≡ spent_by made }
{
    match made {
        Err(RulesErr::NoRule(at)) => ExpandErr::NoRule(at),
        Err(RulesErr::Memory) => ExpandErr::Memory,
        _ => ExpandErr::Limit(LimitKind::Expansions),
    }
}

/// What is said of a macro's rules or its use, as the expander says it.
pub fn refusal(err: RulesErr) -> ExpandErr
    ensures { result ≡ refusal_of err }
{
    match err {
        RulesErr::BadRules(at) => ExpandErr::BadRules(at),
        RulesErr::NoRule(at) => ExpandErr::NoRule(at),
        RulesErr::Limit(kind) => ExpandErr::Limit(kind),
        RulesErr::Memory => ExpandErr::Memory,
    }
}
