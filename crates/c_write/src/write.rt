ghost use Rattle.std.specs.Prelude.{IfOk};
ghost use Rattle.c_tree.specs.Functions.{items_of};
ghost use Rattle.c_tree.specs.Spelling.{CText, NamedItems};

use crate::item::put_items;
use c_tree::{CProgram, CUnit};
use scheme_data::{OutOfMemory, Text};
use std::alloc::Global;

/// A text of the unit, whose names are right.
pub fn write_unit(alloc: Global, u: &CUnit) -> Result<Text, OutOfMemory>
    requires { NamedItems (items_of u.now.items) }
    ensures { IfOk result (λ text. CText text (items_of u.now.items)) }
{
    let mut text = Text::new(alloc);
    put_items(alloc, &mut text, u.items.as_slice())?;
    Ok(text)
}

/// A text of the program, whose names are right.
pub fn write_c(alloc: Global, p: &CProgram) -> Result<Text, OutOfMemory>
    requires { NamedItems (items_of p.now.items) }
    ensures { IfOk result (λ text. CText text (items_of p.now.items)) }
{
    let mut text = Text::new(alloc);
    put_items(alloc, &mut text, p.items.as_slice())?;
    Ok(text)
}
