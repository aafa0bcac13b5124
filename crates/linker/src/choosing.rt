// The parts of a program: the module with `main`, and the units in the order in which the modules are initialised.
ghost use Rattle.std.specs.Prelude.{◌≡◌, ◌<◌, length, nat_lt, true, map, IfOk};
ghost use Rattle.std.specs.List.{list_all};
ghost use Rattle.meaning.specs.Order.{chosen};
ghost use Rattle.object_text.specs.Format.{CanBeWritten};
ghost use Rattle.object_text.specs.Parts.{AllAre};
ghost use Rattle.linker.specs.Links.{part_of, has_one_main};
ghost use Rattle.linker.specs.Modules.{tree_of, trees, unit_part, AreApart, IsMain};

use crate::indexed::Indexed;
use crate::joining::NamedUnit;
use c_tree::function_name_text;
use scheme_data::{List, OutOfMemory, Text};
use std::alloc::Global;
use std::mem;

/// The place of the module with `main`, and the C name of its main function.
#[derive(Drop)]
pub struct Main {
    pub place: usize,
    pub function: Text,
}

/// The main function, of which there is one.
pub fn find_main(alloc: Global, objects: &[Indexed]) -> Result<Main, OutOfMemory>
    requires one { has_one_main (trees objects.now) ≡ true }
    requires writable { AllAre CanBeWritten (trees objects.now) }
    ensures { IfOk result (λ m. IsMain (trees objects.now) m.place m.function) }
{
    for (place, indexed) in objects.iter().enumerate() {
        if let Some(name) = &indexed.object.main {
            let module_name = indexed.object.module_name.as_bytes();
            let function = function_name_text(alloc, module_name, name.as_bytes())?;
            return Ok(Main { place, function });
        }
    }
    unreachable!()
}

/// Takes the units of these objects out of them, in this order.
pub fn take_units(
    alloc: Global,
    objects: &mut [Indexed],
    order: &[usize],
) -> Result<List<NamedUnit>, OutOfMemory>
    requires within { list_all (λ n. nat_lt n (length objects.old)) order.now ≡ true }
    requires apart { AreApart order.now }
    ensures { IfOk result (λ units. map unit_part units ≡ map part_of (chosen (trees objects.old) order.now)) }
{
    let mut units = List::new(alloc);
    for place in order {
        units.push(take_unit(alloc, &mut objects[*place])?)?;
    }
    Ok(units)
}

/// Takes an object's unit out of it.
fn take_unit(alloc: Global, indexed: &mut Indexed) -> Result<NamedUnit, OutOfMemory>
    ensures { IfOk result (λ u. unit_part u ≡ part_of (tree_of indexed.old)) }
{
    Ok(NamedUnit {
        module_name: indexed.object.module_name.copy(alloc)?,
        items: mem::replace(&mut indexed.object.unit.items, List::new(alloc)),
    })
}
