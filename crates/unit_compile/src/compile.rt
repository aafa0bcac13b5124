ghost use Rattle.std.specs.Prelude.{IfOk, map};
ghost use Rattle.scheme_data.specs.Data.{AreProper, plain_all};
ghost use Rattle.iface_text.specs.Format.{iface_tree};
ghost use Rattle.core_tree.specs.Tree.{module_tree};
ghost use Rattle.core_tree.specs.WellFormed.{IsWellFormed};
ghost use Rattle.resolver.specs.Elaboration.{AreSpelled};
ghost use Rattle.object_text.specs.Format.{object_tree, CanBeWritten};
ghost use Rattle.unit_compile.specs.Compilation.{CompilesTo, IsObjectOf};
ghost use Rattle.unit_compile.specs.Refusals.{IsRefusal, Refuses};
ghost use Rattle.unit_compile.specs.declared.error.UnitErr.{UnitErr as AnyErr};
ghost use Rattle.unit_compile.specs.Parts.{ReadsOne, ReadsEach, Makes};

use crate::error::UnitErr;
use crate::forms::read_forms;
use code_gen::generate_unit;
use core_tree::Module;
use iface_text::{Iface, IfaceErr, read_iface};
use object_text::{Object, write_object};
use resolver::resolve_module;
use scheme_data::{Datum, List, OutOfMemory, Text, TextList};
use std::alloc::Global;

/// The text of the object of a source, compiled with these interface texts; of two interfaces of one module the first counts.
pub fn compile_unit(alloc: Global, source: &[u8], interfaces: &TextList) -> Result<Text, UnitErr>
    ensures value { CompilesTo source.now interfaces.now result }
    // What a source has that is refused is refused for that, unless memory runs out.
    ensures refused { (refusal : AnyErr) → IsRefusal source.now refusal → Refuses refusal result }
{
    let forms = read_forms(alloc, source)?;
    let interfaces = interfaces_of(alloc, interfaces.as_slice())?;
    let module = module_of(alloc, forms.as_slice(), interfaces.as_slice())?;
    let object = object_of(alloc, module)?;
    Ok(write_object(alloc, &object)?)
}

/// The interfaces of these texts.
fn interfaces_of(alloc: Global, texts: &[Text]) -> Result<List<Iface>, UnitErr>
    ensures { ReadsEach texts.now result }
{
    let mut interfaces = List::new(alloc);
    for text in texts {
        interfaces.push(interface_of(alloc, text.as_bytes())?)?;
    }
    Ok(interfaces)
}

fn interface_of(alloc: Global, text: &[u8]) -> Result<Iface, UnitErr>
    ensures { ReadsOne text.now result }
{
    match read_iface(alloc, text) {
        Ok(interface) => Ok(interface),
        Err(IfaceErr::NotInterface(_)) => Err(UnitErr::NotBuilt),
        Err(IfaceErr::Memory) => Err(UnitErr::Memory),
    }
}

fn module_of(alloc: Global, forms: &[Datum], interfaces: &[Iface]) -> Result<Module, UnitErr>
    requires proper { AreProper (plain_all forms.now) }
    requires spelled { AreSpelled (map iface_tree interfaces.now) }
    ensures { Makes (map iface_tree interfaces.now) forms.now result }
{
    match resolve_module(alloc, forms, interfaces)? {
        Some(module) => Ok(module),
        None => Err(UnitErr::NotBuilt),
    }
}

fn object_of(alloc: Global, m: Module) -> Result<Object, OutOfMemory>
    requires { IsWellFormed (module_tree m) }
    ensures is { IfOk result (λ o. IsObjectOf (module_tree m) (object_tree o)) }
    ensures writable { IfOk result (λ o. CanBeWritten (object_tree o)) }
{
    let unit = generate_unit(alloc, &m)?;
    let Module {
        name,
        imports,
        uses,
        exports,
        main,
        ..
    } = m;
    Ok(Object {
        module_name: name,
        imports,
        uses,
        exports,
        main,
        unit,
    })
}
