ghost use Rattle.std.specs.Prelude.{◌≡◌, ◌++◌, IfOk, OnOk, MatchOption, Some, None, codes};
ghost use Rattle.scheme_data.specs.Forms.{form, symbol, form_says};
ghost use Rattle.core_forms.specs.Scope.{sure};
ghost use Rattle.core_forms.specs.Table.{two, core};
ghost use Rattle.core_forms.specs.Code.{data_of, items_in};

use scheme_data::{Datum, OutOfMemory, Place, Stack, Text};
use sqlite_items::Items;
use std::alloc::{AllocError, Global};

/// The mark of words that mean special forms for sure, which no other symbol has.
pub const CORE_MARK: u32 = 4_294_967_295;

/// The mark of the new name that comes first in a module. Marks of expansions lie below.
pub const FIRST_NEW: u32 = 20_001;

/// The word of a special form, for sure.
pub fn sure(alloc: Global, at: Place, word: &[u8]) -> Result<Datum, OutOfMemory>
    ensures { IfOk result (λ d. form d ≡ sure at word.now) }
{
    Ok(Datum::Sym(at, Text::from_bytes(alloc, word)?, CORE_MARK))
}

/// A new name.
pub fn new_name(alloc: Global, at: Place, mark: u32) -> Result<Datum, OutOfMemory>
    ensures { IfOk result (λ d. form d ≡ symbol at (codes "t") mark) }
{
    Ok(Datum::Sym(at, Text::from_bytes(alloc, b"t")?, mark))
}

pub fn two(alloc: Global, at: Place, a: Datum, b: Datum) -> Result<Datum, AllocError>
    ensures { IfOk result (λ d. form d ≡ two at (form a) (form b)) }
{
    let mut items = Items::new(alloc);
    items.push(a)?;
    items.push(b)?;
    Ok(Datum::List(at, items))
}

/// The form of this word, for sure, and these data.
pub fn core(
    alloc: Global,
    at: Place,
    word: &[u8],
    items: Items<Datum>,
) -> Result<Datum, OutOfMemory>
    ensures { IfOk result (λ d. form d ≡ core at word.now (data_of items)) }
{
    let mut all = Items::new(alloc);
    all.push(sure(alloc, at, word)?)?;
    all.append(items)?;
    Ok(Datum::List(at, all))
}

/// Data, the first on top.
pub fn stacked(alloc: Global, items: Items<Datum>) -> Result<Stack<Datum>, OutOfMemory>
    ensures { IfOk result (λ ds. ds ≡ items) }
{
    let mut stack = Stack::new(alloc);
    put_in_front(&mut stack, items)?;
    Ok(stack)
}

/// Puts data in front of others.
pub fn put_in_front(stack: &mut Stack<Datum>, items: Items<Datum>) -> Result<(), OutOfMemory>
    ensures { OnOk result (stack.new ≡ items ++ stack.old) }
{
    let mut items = items;
    while let Some(item) = items.pop() {
        stack.push(item)?;
    }
    Ok(())
}

/// The data of a stack, in their order.
pub fn listed(alloc: Global, stack: Stack<Datum>) -> Result<Items<Datum>, OutOfMemory>
    ensures { IfOk result (λ ds. ds ≡ stack) }
{
    let mut stack = stack;
    let mut items = Items::new(alloc);
    while let Some(item) = stack.pop() {
        items.push(item)?;
    }
    Ok(items)
}

/// The items of a list; none of anything else.
pub fn items_of(datum: Datum) -> Option<Items<Datum>>
    ensures { MatchOption result (items_in (form datum) ≡ None) (λ ds. items_in (form datum) ≡ Some (data_of ds)) }
{
    match datum {
        Datum::List(_, items) => Some(items),
        _ => None,
    }
}

/// Whether a datum is the symbol of this word, whatever its mark.
pub fn says(datum: &Datum, word: &[u8]) -> bool
    ensures { result ≡ form_says (form datum.now) word.now }
{
    match datum {
        Datum::Sym(_, name, _) => name.as_bytes() == word,
        _ => false,
    }
}
