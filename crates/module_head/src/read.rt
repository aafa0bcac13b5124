ghost use Rattle.std.specs.Prelude.{◌≡◌, IfOk};
ghost use Rattle.std.specs.Option.{option_map, option_copied};
ghost use Rattle.scheme_data.specs.Forms.{form};
ghost use Rattle.module_head.specs.declared.head.Head.{Head};
ghost use Rattle.module_head.specs.Heads.{Breach, header, duplicate, right, wrong_at_first, clauses, head_of_parts, module_of, head_of};
ghost use Rattle.module_head.specs.Shapes.{forms_of};
ghost use Rattle.module_head.specs.Answers.{IfHeader, IfDuplicate, GivesHead, Refuses};
ghost use Rattle.module_head.specs.Steps.{Answers};

use crate::error::HeadErr;
use crate::head::Head;
use crate::reading::Reading;
use crate::shapes::{parts, place, says, symbol};
use scheme_data::{Datum, Place, Text};
use std::alloc::Global;

/// The head of the module with this name and these clauses, or its first breach.
fn head_with(alloc: Global, name: &Text, ds: &[Datum]) -> Result<Head, HeadErr>
    ensures { Answers (head_of_parts name.now (clauses (forms_of ds.now))) result }
{
    let mut reading = Reading::new(alloc, name.copy(alloc)?);
    reading.add_clauses(alloc, ds)?;
    Ok(reading.head)
}

fn head_in(alloc: Global, d: &Datum) -> Result<Head, HeadErr>
    ensures { Answers (module_of (form d.now)) result }
{
    let Some(ds) = parts(d) else {
        return Err(HeadErr::Header(place(d)));
    };
    let [word, name, rest @ ..] = ds else {
        return Err(HeadErr::Header(place(d)));
    };
    let Some(name) = symbol(name) else {
        return Err(HeadErr::Header(place(d)));
    };
    if !says(word, b"module") {
        return Err(HeadErr::Header(place(d)));
    }
    head_with(alloc, name, rest)
}

fn head_at_first(alloc: Global, d: Option<&Datum>) -> Result<Head, HeadErr>
    ensures { Answers (head_of (option_map form (option_copied d.entry))) result }
{
    match d {
        None => Err(HeadErr::Header(Place { line: 1, column: 1 })),
        Some(d) => head_in(alloc, d),
    }
}

/// The head of the source whose first datum this is, or its first breach.
pub fn read_head(alloc: Global, d: Option<&Datum>) -> Result<Head, HeadErr>
    ensures value { IfOk result (λ h. head_of (option_map form (option_copied d.entry)) ≡ right h) }
    ensures header { IfHeader result (λ at. head_of (option_map form (option_copied d.entry)) ≡ wrong_at_first (header at)) }
    ensures duplicate { IfDuplicate result (λ x. head_of (option_map form (option_copied d.entry)) ≡ wrong_at_first (duplicate x)) }
    // What the head is, and what its first breach is, is answered unless memory runs out.
    ensures given { (h : Head) → head_of (option_map form (option_copied d.entry)) ≡ right h → GivesHead h result }
    ensures refused { (b : Breach) → head_of (option_map form (option_copied d.entry)) ≡ wrong_at_first b → Refuses b result }
{
    head_at_first(alloc, d)
}
