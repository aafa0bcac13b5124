// The clauses of a head, in order.
ghost use Rattle.std.specs.Prelude.{◌≡◌};
ghost use Rattle.scheme_data.specs.Forms.{form};
ghost use Rattle.module_head.specs.Heads.{clause, clauses};
ghost use Rattle.module_head.specs.Shapes.{forms_of};
ghost use Rattle.module_head.specs.Steps.{Follows, take_all, kind_of};

use crate::error::HeadErr;
use crate::reading::{ItemKind, Reading};
use crate::shapes::{parts, place, says};
use scheme_data::Datum;
use std::alloc::Global;

/// The kind of the clause with this word; none where it has no items, or where it is the word of no clause.
fn kind_of(word: &Datum) -> Option<ItemKind>
    ensures { result ≡ kind_of (form word.now) }
{
    if says(word, b"import") {
        Some(ItemKind::Import)
    } else if says(word, b"export") {
        Some(ItemKind::Export)
    } else if says(word, b"static") {
        Some(ItemKind::Static)
    } else if says(word, b"extern") {
        Some(ItemKind::Extern)
    } else {
        None
    }
}

impl Reading {
    fn add_clause(&mut self, alloc: Global, d: &Datum) -> Result<(), HeadErr>
        ensures { Follows (take_all (clause (form d.now)) self.old) result self.new }
    {
        let Some(ds) = parts(d) else {
            return Err(HeadErr::Header(place(d)));
        };
        let [word, rest @ ..] = ds else {
            return Err(HeadErr::Header(place(d)));
        };
        if let Some(kind) = kind_of(word) {
            return self.add_items(alloc, kind, rest);
        }
        if says(word, b"main") {
            return self.add_main(alloc, place(d), rest);
        }
        Err(HeadErr::Header(place(d)))
    }

    /// Adds what these clauses say, until the first breach.
    pub fn add_clauses(&mut self, alloc: Global, ds: &[Datum]) -> Result<(), HeadErr>
        ensures { Follows (take_all (clauses (forms_of ds.now)) self.old) result self.new }
    {
        for d in ds {
            self.add_clause(alloc, d)?;
        }
        Ok(())
    }
}
