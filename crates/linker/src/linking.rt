ghost use Rattle.std.specs.Prelude.{◌≡◌, None, IfOk};
ghost use Rattle.object_text.specs.Format.{CanBeWritten};
ghost use Rattle.object_text.specs.Parts.{AllAre};
ghost use Rattle.linker.specs.Links.{link_refusal, LinksTo};
ghost use Rattle.linker.specs.Modules.{trees, LinksTrees, IsProgram};

use crate::choosing::{find_main, take_units};
use crate::indexed::Indexed;
use crate::joining::joined_program;
use crate::modules::{Modules, modules_of};
use crate::reading::read_objects;
use c_write::write_c;
use module_order::initialization_order;
use scheme_data::{OutOfMemory, Text, TextList};
use std::alloc::Global;

/// Why objects aren't linked. Objects are numbered from 1, in the order in which they are given.
#[derive(Drop, Debug)]
pub enum LinkErr {
    /// The object of this number imports a module that no object has.
    MissingModule(u64, Text),
    /// The object of this number used a name of a module, which doesn't export it now.
    MissingName(u64, Text, Text),
    /// A text is that of no object, there are more than 200 objects, two have one module name, a used name has another signature now, or not exactly one has a main function.
    NotBuilt,
    /// Memory was wanted and not given.
    Memory,
}

impl From<OutOfMemory> for LinkErr {
    ghost use Rattle.linker.specs.declared.linking.LinkErr.TheVariants.{Memory};

    ghost from_gives = { λ _ e. e ≡ Memory };

    fn from(_: OutOfMemory) -> Self {
        LinkErr::Memory
    }
}

/// A text of the program of these objects: the units of those that are reached from the one with `main`, in the order in which modules are initialised, and then `main`.
pub fn link(alloc: Global, objects: &TextList) -> Result<Text, LinkErr>
    ensures { LinksTo objects.now result }
{
    match read_objects(alloc, objects.as_slice())? {
        Some(objects) => link_objects(alloc, objects),
        None => Err(LinkErr::NotBuilt),
    }
}

/// A text of the program of these objects, if they aren't refused.
fn link_objects(alloc: Global, objects: Vec<Indexed>) -> Result<Text, LinkErr>
    requires { AllAre CanBeWritten (trees objects.items) }
    ensures { LinksTrees (trees objects.items) result }
{
    let Some(modules) = modules_of(alloc, objects)? else {
        return Err(LinkErr::NotBuilt);
    };
    if let Some(refused) = modules.refusal(alloc)? {
        return Err(refused);
    }
    Ok(program_text(alloc, modules)?)
}

/// A text of the program of these modules.
fn program_text(alloc: Global, modules: Modules) -> Result<Text, OutOfMemory>
    requires accepted { link_refusal (trees modules.objects.items) ≡ None }
    requires writable { AllAre CanBeWritten (trees modules.objects.items) }
    ensures { IfOk result (λ text. IsProgram (trees modules.objects.items) text) }
{
    let main = find_main(alloc, &modules.objects)?;
    let imports = modules.imports(alloc)?;
    let order = initialization_order(alloc, &imports, main.place)?;
    let mut objects = modules.objects;
    let units = take_units(alloc, &mut objects, order.as_slice())?;
    let program = joined_program(alloc, units, main.function)?;
    write_c(alloc, &program)
}
