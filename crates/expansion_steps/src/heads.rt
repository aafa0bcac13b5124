// What the word at the head of a form means.

ghost use Rattle.std.specs.Prelude.{◌≡◌, IfOk};
ghost use Rattle.scheme_data.specs.Forms.{form};
ghost use Rattle.core_forms.specs.Scope.{keyword, special_or_plain, meaning, meaning_at, meaning_first, macro_alone, head_meaning};
ghost use Rattle.core_forms.specs.Code.{data_of};
ghost use Rattle.expansion_steps.specs.Heads.{meaning_of, macros_of};

use crate::macros::Macros;
use core_forms::{CORE_MARK, Keyword, keyword_of};
use marked_names::Scope;
use scheme_data::{Datum, OutOfMemory};
use syntax_rules::Rules;

/// What the head of a form means.
#[derive(Clone, Copy, Drop)]
pub enum Head<'a> {
    Macro(&'a Rules),
    Special(Keyword),
    Plain,
}

fn special(x: &[u8]) -> Head<'static>
    ensures { meaning_of result ≡ special_or_plain (keyword x.now) }
{
    match keyword_of(x) {
        Some(keyword) => Head::Special(keyword),
        None => Head::Plain,
    }
}

/// A local name, a macro, a special form, or a call.
fn meaning<'a>(
    macros: &'a Macros,
    scope: &Scope,
    x: &[u8],
    mark: u32,
) -> Result<Head<'a>, OutOfMemory>
    ensures { IfOk result (λ h. meaning_of h ≡ meaning (macros_of macros.now) scope.now x.now mark) }
{
    if mark == CORE_MARK {
        return Ok(special(x));
    }
    if scope.binds(x, mark)? {
        return Ok(Head::Plain);
    }
    match macros.named(x) {
        Some(rules) => Ok(Head::Macro(rules)),
        None => Ok(special(x)),
    }
}

fn meaning_at<'a>(macros: &'a Macros, scope: &Scope, head: &Datum) -> Result<Head<'a>, OutOfMemory>
    ensures { IfOk result (λ h. meaning_of h ≡ meaning_at (macros_of macros.now) scope.now (form head.now)) }
{
    match head {
        Datum::Sym(_, name, mark) => meaning(macros, scope, name.as_bytes(), *mark),
        _ => Ok(Head::Plain),
    }
}

fn meaning_first<'a>(
    macros: &'a Macros,
    scope: &Scope,
    items: &[Datum],
) -> Result<Head<'a>, OutOfMemory>
    ensures { IfOk result (λ h. meaning_of h ≡ meaning_first (macros_of macros.now) scope.now (data_of items.now)) }
{
    match items {
        [head, ..] => meaning_at(macros, scope, head),
        [] => Ok(Head::Plain),
    }
}

fn macro_alone<'a>(head: &Head<'a>) -> Head<'a>
    ensures { meaning_of result ≡ macro_alone (meaning_of head.now) }
{
    match head {
        Head::Macro(rules) => Head::Macro(rules),
        Head::Special(_) => Head::Plain,
        Head::Plain => Head::Plain,
    }
}

/// What the head of a form means; a dotted list is no special form.
pub fn head_of<'a>(
    macros: &'a Macros,
    scope: &Scope,
    datum: &Datum,
) -> Result<Head<'a>, OutOfMemory>
    ensures { IfOk result (λ h. meaning_of h ≡ head_meaning (macros_of macros.now) scope.now (form datum.now)) }
{
    match datum {
        Datum::List(_, items) => meaning_first(macros, scope, items.as_slice()),
        Datum::Dotted(_, items, _) => {
            let head = meaning_first(macros, scope, items.as_slice())?;
            Ok(macro_alone(&head))
        }
        _ => Ok(Head::Plain),
    }
}
