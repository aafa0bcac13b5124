ghost use Rattle.std.specs.Prelude.{◌≡◌, IfOk};
ghost use Rattle.scheme_data.specs.Data.{AreProper, plain_all};
ghost use Rattle.unit_compile.specs.Compilation.{ExportsAs};
ghost use Rattle.unit_compile.specs.Refusals.{IsRefusal, Refuses};
ghost use Rattle.unit_compile.specs.declared.error.UnitErr.{UnitErr as AnyErr};

use crate::error::UnitErr;
use crate::forms::read_forms;
use iface_text::{Iface, write_iface};
use resolver::exported_interface;
use scheme_data::{Datum, Text};
use std::alloc::Global;

/// The text of the interface of a source: a row for each function that it exports, in clause order.
pub fn make_iface(alloc: Global, source: &[u8]) -> Result<Text, UnitErr>
    ensures value { ExportsAs source.now result }
    // What a source has that is refused is refused for that, unless memory runs out.
    ensures refused { (refusal : AnyErr) → IsRefusal source.now refusal → Refuses refusal result }
{
    let forms = read_forms(alloc, source)?;
    match exported_interface(alloc, forms.as_slice())? {
        Some(interface) => Ok(write_iface(alloc, &interface)?),
        None => Err(UnitErr::NotBuilt),
    }
}
