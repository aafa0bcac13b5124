// What a source says by itself.
ghost use Rattle.std.specs.Prelude.{◌≡◌, IfOk, Some, map};
ghost use Rattle.std.specs.Option.{option_map};
ghost use Rattle.scheme_data.specs.Data.{plain_all};
ghost use Rattle.resolver.specs.Trees.{head_tree};
ghost use Rattle.resolver.specs.Drafts.{draft_of, draft};
ghost use Rattle.resolver.specs.Parts.{top_of, draft_tree};

use crate::agreement::Defined;
use crate::built_head::{BuiltHead, read_head};
use crate::functions::Functions;
use crate::outside::outside_names;
use crate::tops::{TopForm, function_names, param_counts, top_forms};
use core_tree::Top;
use name_table::NameTable;
use scheme_data::{Datum, List, OutOfMemory};
use std::alloc::Global;

/// What a source says by itself: its head, the names of other modules' functions that it calls, in order of first use, and its top-level forms, in which each of those stands for its place.
#[derive(Drop)]
pub(crate) struct Draft {
    pub head: BuiltHead,
    pub outside: NameTable,
    pub tops: List<Top>,
}

/// The draft of a head and top-level forms; none where they don't agree, or a body or an expression isn't built.
fn draft_of(
    alloc: Global,
    head: BuiltHead,
    forms: &[TopForm<'_>],
) -> Result<Option<Draft>, OutOfMemory>
    ensures { IfOk result (λ d. option_map draft_tree d ≡ draft_of (Some (head_tree head)) (Some (map top_of forms.now))) }
{
    let Some(names) = function_names(alloc, forms)? else {
        return Ok(None);
    };
    let counts = param_counts(alloc, forms)?;
    let known = Defined {
        tops: &*forms,
        names: &names,
        counts: counts.as_slice(),
    };
    if !known.agrees(&head) {
        return Ok(None);
    }
    let outside = outside_names(alloc, head.imports.as_slice(), &names, forms)?;
    let functions = Functions {
        alloc,
        head: &head,
        names: &names,
        outside: &outside,
    };
    let Some(tops) = functions.all(forms)? else {
        return Ok(None);
    };
    Ok(Some(Draft {
        head,
        outside,
        tops,
    }))
}

/// The draft of a source's data; none exactly where they aren't by the forms that are built.
#[tactic(auto, unfolding(crate::specs::Drafts::draft))]
pub(crate) fn read_draft(alloc: Global, forms: &[Datum]) -> Result<Option<Draft>, OutOfMemory>
    ensures { IfOk result (λ d. option_map draft_tree d ≡ draft (plain_all forms.now)) }
{
    let [first, rest @ ..] = forms else {
        return Ok(None);
    };
    let Some(head) = read_head(alloc, first)? else {
        return Ok(None);
    };
    let Some(tops) = top_forms(alloc, rest)? else {
        return Ok(None);
    };
    draft_of(alloc, head, tops.as_slice())
}
