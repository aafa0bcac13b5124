// The phases that look at a source alone: reading, the head, and expansion.
ghost use Rattle.std.specs.Prelude.{◌≡◌, IfOk};
ghost use Rattle.module_head.specs.Answers.{IfHeader, IfDuplicate, Refuses as RefusesHead};
ghost use Rattle.module_head.specs.Heads.{Breach, header, duplicate, right, wrong_at_first};
ghost use Rattle.core_forms.specs.Modules.{IsRefused};
ghost use Rattle.core_forms.specs.declared.error.ExpandErr.{ExpandErr as AnyBreach};
ghost use Rattle.expander.specs.Answers.{Answer, Refuses as RefusesBreach};
ghost use Rattle.unit_compile.specs.declared.error.UnitErr.{UnitErr as AnyErr};
ghost use Rattle.unit_compile.specs.Refusals.{AreRefused, ChecksAs, FormsAs, IsRefusal, Refuses, behind_head, head_in};

use crate::error::UnitErr;
use expander::{Core, ExpandErr, expand_module};
use module_head::{Head, HeadErr, read_head};
use scheme_data::{Datum, List};
use scheme_read::read_all;
use std::alloc::Global;

/// The data of a source of which nothing is refused by itself.
pub(crate) fn read_forms(alloc: Global, source: &[u8]) -> Result<List<Datum>, UnitErr>
    ensures value { FormsAs source.now result }
    ensures refused { (refusal : AnyErr) → IsRefusal source.now refusal → Refuses refusal result }
{
    let forms = read_all(alloc, source)?;
    check_forms(alloc, forms.as_slice())?;
    Ok(forms)
}

/// Refuses data whose head isn't right, or which aren't expanded. What a right head says, and what the forms behind it become, isn't compiled yet.
fn check_forms(alloc: Global, forms: &[Datum]) -> Result<(), UnitErr>
    ensures checked { ChecksAs forms.now result }
    ensures refused { (refusal : AnyErr) → AreRefused forms.now refusal → Refuses refusal result }
{
    drop(head_in(alloc, forms)?);
    drop(expand_behind(alloc, forms)?);
    Ok(())
}

/// The head that the first datum says.
fn head_in(alloc: Global, forms: &[Datum]) -> Result<Head, HeadErr>
    ensures value { IfOk result (λ h. head_in forms.now ≡ right h) }
    ensures header { IfHeader result (λ at. head_in forms.now ≡ wrong_at_first (header at)) }
    ensures duplicate { IfDuplicate result (λ x. head_in forms.now ≡ wrong_at_first (duplicate x)) }
    ensures refused { (b : Breach) → head_in forms.now ≡ wrong_at_first b → RefusesHead b result }
{
    read_head(alloc, forms.first())
}

/// The core forms of what stands behind the head.
fn expand_behind(alloc: Global, forms: &[Datum]) -> Result<Core, ExpandErr>
    ensures answer { Answer (behind_head forms.now) result }
    ensures refused { (breach : AnyBreach) → IsRefused (behind_head forms.now) breach → RefusesBreach breach result }
{
    match forms {
        [] => expand_module(alloc, forms),
        [_, behind @ ..] => expand_module(alloc, behind),
    }
}
