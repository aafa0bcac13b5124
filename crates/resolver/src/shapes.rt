// The shapes of data that heads and the forms below them are made of.
ghost use Rattle.std.specs.Prelude.{◌≡◌};
ghost use Rattle.std.specs.Option.{option_map, option_copied};
ghost use Rattle.scheme_data.specs.Data.{plain, plain_all};
ghost use Rattle.resolver.specs.BuiltHeads.{is_word, symbol_of, says, begins_type, has_type, name_of};
ghost use Rattle.resolver.specs.DatumParts.{parts_of};

use scheme_data::{Datum, Text};

/// The parts of a list; a dotted list is none.
pub fn parts(d: &Datum) -> Option<&[Datum]>
    ensures { option_map plain_all (option_copied result) ≡ parts_of (plain d.now) }
{
    match d {
        Datum::List(_, ds) => Some(ds.as_slice()),
        _ => None,
    }
}

/// The name of a symbol.
pub fn symbol(d: &Datum) -> Option<&Text>
    ensures { option_copied result ≡ symbol_of (plain d.now) }
{
    match d {
        Datum::Sym(_, name, _) => Some(name),
        _ => None,
    }
}

/// Whether a name is this word.
pub fn name_is(name: &[u8], word: &[u8]) -> bool
    ensures { result ≡ is_word name.now word.now }
{
    name == word
}

/// Whether a datum is the symbol of this word.
pub fn is_symbol(d: &Datum, word: &[u8]) -> bool
    ensures { result ≡ says (symbol_of (plain d.now)) word.now }
{
    match symbol(d) {
        None => false,
        Some(name) => name_is(name.as_bytes(), word),
    }
}

fn type_begins(rest: &[u8]) -> bool
    ensures { result ≡ begins_type rest.now }
{
    rest.len() >= 2 && rest[0] == b':' && rest[1] == b':'
}

/// Whether a name has a type, as `x::long`.
pub fn name_has_type(name: &[u8]) -> bool
    ensures { result ≡ has_type name.now }
{
    for i in 0..name.len() {
        if type_begins(&name[i..]) {
            return true;
        }
    }
    false
}

/// The name of a symbol without a type.
pub fn untyped_name(d: &Datum) -> Option<&Text>
    ensures { option_copied result ≡ name_of (plain d.now) }
{
    let name = symbol(d)?;
    if name_has_type(name.as_bytes()) {
        return None;
    }
    Some(name)
}
