ghost use Rattle.std.specs.Prelude.{◌≡◌};
ghost use Rattle.c_tree.specs.Functions.{items_of};
ghost use Rattle.c_meaning.specs.Checked.{IsChecked};
ghost use Rattle.c_check.specs.Answers.{ChecksTo};

use crate::ends::first_breach;
use c_meaning::Breach;
use c_tree::CProgram;
use scheme_data::OutOfMemory;
use std::alloc::Global;
use std::marker::Model;

/// Why a program isn't accepted.
#[derive(Drop, Debug)]
pub enum CheckErr {
    /// It breaks a rule; the breach is the first in text order.
    BadC(Breach),
    /// Memory was wanted and not given.
    Memory,
}

impl From<OutOfMemory> for CheckErr {
    ghost use Rattle.c_check.specs.declared.checking.CheckErr.TheVariants.{Memory};

    ghost from_gives = { λ _ e. e ≡ Memory };

    fn from(_: OutOfMemory) -> Self {
        CheckErr::Memory
    }
}

/// A checked program.
#[derive(Drop)]
pub struct Checked {
    program: CProgram,
}

impl Model for Checked {
    ghost use Rattle.c_tree.specs.Functions.{items_of};
    ghost use Rattle.c_tree.specs.declared.function.CProgram.{CProgram};
    ghost use Rattle.c_tree.specs.contracts.function.CProgram as the_program;
    ghost use Rattle.c_meaning.specs.Checked.{IsChecked};

    ghost Value = { CProgram };

    ghost coded = { the_program.the_row.coded };

    ghost view = { λ c. c.program };

    ghost invariant = { λ c. IsChecked (items_of c.program.items) };
}

/// Keeps the program, exactly where it breaks no rule; a refused one is dropped.
/// A `BadC` is the first breach in text order, and a `Memory` comes only for want of memory.
pub fn check(alloc: Global, p: CProgram) -> Result<Checked, CheckErr>
    ensures { ChecksTo p result }
{
    match first_breach(alloc, p.items.as_slice())? {
        None => Ok(Checked { program: p }),
        Some(breach) => Err(CheckErr::BadC(breach)),
    }
}

impl Checked {
    /// The program that it keeps.
    pub fn program(&self) -> &CProgram
        ensures same { result.now ≡ self.now }
        ensures checked { IsChecked (items_of self.now.items) }
    {
        &self.program
    }
}
