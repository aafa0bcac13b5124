ghost use Rattle.std.specs.Prelude.{◌≡◌, ◌<◌, suc, length, map, drop};
ghost use Rattle.std.specs.Option.{option_map, option_copied};
ghost use Rattle.syntax_rules.specs.Macros.{parts_of, symbol_of};
ghost use Rattle.syntax_rules.specs.Views.{forms_of};
ghost use Rattle.scheme_data.specs.Forms.{form, forms, form_says};
ghost use Rattle.syntax_rules.specs.Patterns.{is_dots, are_dots};
ghost use Rattle.syntax_rules.specs.Templates.{begin_dots};

use scheme_data::{Datum, Text};

/// Whether a datum is the symbol of a word, whatever its mark.
pub(crate) fn says(d: &Datum, word: &[u8]) -> bool
    ensures { result ≡ form_says (form d.now) word.now }
{
    match d {
        Datum::Sym(_, name, _) => name.as_bytes() == word,
        _ => false,
    }
}

/// Whether a datum is `...`.
pub(crate) fn is_dots(d: &Datum) -> bool
    ensures { result ≡ is_dots (form d.now) }
{
    says(d, b"...")
}

/// Whether behind a place there is `...` alone.
pub(crate) fn dots_end(ds: &[Datum], i: usize) -> bool
    requires { i < length ds.now }
    ensures { result ≡ are_dots (forms (map form (drop (suc i) ds.now))) }
{
    if ds.len() - i != 2 {
        return false;
    }
    is_dots(&ds[i + 1])
}

/// Whether what is behind a place begins with `...`.
pub(crate) fn dots_follow(ds: &[Datum], i: usize) -> bool
    requires { i < length ds.now }
    ensures { result ≡ begin_dots (forms (map form (drop (suc i) ds.now))) }
{
    if ds.len() - i < 2 {
        return false;
    }
    is_dots(&ds[i + 1])
}

/// The parts of a list; a dotted list is none.
pub(crate) fn parts(d: &Datum) -> Option<&[Datum]>
    ensures { option_map forms_of (option_copied result) ≡ parts_of (form d.now) }
{
    match d {
        Datum::List(_, ds) => Some(ds.as_slice()),
        _ => None,
    }
}

/// The name of a symbol.
pub(crate) fn symbol(d: &Datum) -> Option<&Text>
    ensures { option_copied result ≡ symbol_of (form d.now) }
{
    match d {
        Datum::Sym(_, name, _) => Some(name),
        _ => None,
    }
}
