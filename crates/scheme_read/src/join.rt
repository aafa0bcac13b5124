// Data that are made of others.
ghost use Rattle.std.specs.Prelude.{◌≡◌, IfOk};
ghost use Rattle.scheme_read.specs.Grammar.{simple, quoted, joined};

use scheme_data::{Datum, OutOfMemory, Place, Text};
use scheme_tokens::Atom;
use sqlite_items::{Boxed, Items};
use std::alloc::Global;

/// The datum that is one token.
pub fn simple_datum(at: Place, atom: Atom) -> Datum
    ensures { result ≡ simple at atom }
{
    match atom {
        Atom::Int(n) => Datum::Int(at, n),
        Atom::Chr(b) => Datum::Chr(at, b),
        Atom::Bool(t) => Datum::Bool(at, t),
        Atom::Unspec => Datum::Unspec(at),
        Atom::Str(text) => Datum::Str(at, text),
        Atom::Sym(name) => Datum::Sym(at, name, 0),
    }
}

/// The list of `quote` and a datum.
pub fn quoted_datum(alloc: Global, at: Place, inner: Datum) -> Result<Datum, OutOfMemory>
    ensures { IfOk result (λ d. d ≡ quoted at inner) }
{
    let name = Text::from_bytes(alloc, b"quote")?;
    let mut items = Items::new(alloc);
    items.push(Datum::Sym(at, name, 0))?;
    items.push(inner)?;
    Ok(Datum::List(at, items))
}

/// The list of the items and a tail, which is one list with a tail that is a list.
pub fn joined_list(
    alloc: Global,
    at: Place,
    mut items: Items<Datum>,
    tail: Datum,
) -> Result<Datum, OutOfMemory>
    ensures { IfOk result (λ d. d ≡ joined at items tail) }
{
    match tail {
        Datum::List(_, more) => {
            items.append(more)?;
            Ok(Datum::List(at, items))
        }
        Datum::Dotted(_, more, last) => {
            items.append(more)?;
            Ok(Datum::Dotted(at, items, last))
        }
        other => Ok(Datum::Dotted(at, items, Boxed::new(alloc, other)?)),
    }
}
