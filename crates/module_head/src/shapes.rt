// The shapes of data that heads are made of.
ghost use Rattle.std.specs.Prelude.{◌≡◌};
ghost use Rattle.std.specs.Option.{option_map, option_copied};
ghost use Rattle.scheme_data.specs.Forms.{form, form_place, form_says};
ghost use Rattle.module_head.specs.Heads.{symbol_of, string_of};
ghost use Rattle.module_head.specs.Shapes.{forms_of, parts_of};

use scheme_data::{Datum, Place, Text};

/// The place of a datum's first token.
pub fn place(d: &Datum) -> Place
    ensures { result ≡ form_place (form d.now) }
{
    d.place()
}

/// The parts of a list; a dotted list is none.
pub fn parts(d: &Datum) -> Option<&[Datum]>
    ensures { option_map forms_of (option_copied result) ≡ parts_of (form d.now) }
{
    match d {
        Datum::List(_, ds) => Some(ds.as_slice()),
        _ => None,
    }
}

/// The name of a symbol.
pub fn symbol(d: &Datum) -> Option<&Text>
    ensures { option_copied result ≡ symbol_of (form d.now) }
{
    match d {
        Datum::Sym(_, name, _) => Some(name),
        _ => None,
    }
}

/// The bytes of a string.
pub fn string(d: &Datum) -> Option<&Text>
    ensures { option_copied result ≡ string_of (form d.now) }
{
    match d {
        Datum::Str(_, text) => Some(text),
        _ => None,
    }
}

/// Whether a datum is the symbol of this word.
pub fn says(d: &Datum, word: &[u8]) -> bool
    ensures { result ≡ form_says (form d.now) word.now }
{
    match symbol(d) {
        None => false,
        Some(name) => name.as_bytes() == word,
    }
}
