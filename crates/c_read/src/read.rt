ghost use Rattle.std.specs.Prelude.{◌≡◌, List};
ghost use Rattle.c_tree.specs.Code.{Item};
ghost use Rattle.c_tree.specs.Spelling.{CText};
ghost use Rattle.c_read.specs.Answers.{ReadsProgram, ReadsUnit, GivesProgram, GivesUnit};
ghost use Rattle.c_read.specs.Reading.{ReadsTree, ReadsItems};

use crate::fault::fault;
use crate::items::read_items;
use crate::stop::Stop;
use crate::tokens::Tokens;
use c_tree::{CItem, CProgram, CUnit};
use scheme_data::{List, OutOfMemory, Place};
use std::alloc::Global;

/// Why a text isn't read.
#[derive(Clone, Copy, Debug, PartialEq, Eq)]
pub enum CReadErr {
    /// No tree has this text: at the first token with which no text could go on, or at the end of a text that isn't whole.
    NotC(Place),
    /// Memory was wanted and not given.
    Memory,
}

impl From<OutOfMemory> for CReadErr {
    ghost use Rattle.c_read.specs.declared.read.CReadErr.TheVariants.{Memory};

    ghost from_gives = { λ _ e. e ≡ Memory };

    fn from(_: OutOfMemory) -> Self {
        CReadErr::Memory
    }
}

// The items of a text.
fn read_tree(alloc: Global, b: &[u8]) -> Result<List<CItem>, Stop>
    ensures { ReadsTree b.now result }
{
    let mut left = Tokens::new(b);
    read_items(alloc, &mut left)
}

// The tree's reader keeps no places: a text that it refuses is walked again, by the rows of the grammar.
fn read_text(alloc: Global, b: &[u8]) -> Result<List<CItem>, CReadErr>
    ensures { ReadsItems b.now result }
{
    match read_tree(alloc, b) {
        Ok(items) => Ok(items),
        Err(Stop::Wrong) => {
            let at = fault(alloc, b)?;
            Err(CReadErr::NotC(at))
        }
        Err(Stop::Memory) => Err(CReadErr::Memory),
    }
}

/// The program of a text.
pub fn read_c(alloc: Global, b: &[u8]) -> Result<CProgram, CReadErr>
    // What is read has this text; what is refused has no tree, and the place is the first where no text could go on.
    ensures answer { ReadsProgram b.now result }
    // The tree of the text is what is read, unless memory runs out.
    ensures given { (items : List Item) → CText b.now items → GivesProgram items result }
{
    let items = read_text(alloc, b)?;
    Ok(CProgram { items })
}

/// The unit of a text.
pub fn read_unit(alloc: Global, b: &[u8]) -> Result<CUnit, CReadErr>
    ensures answer { ReadsUnit b.now result }
    ensures given { (items : List Item) → CText b.now items → GivesUnit items result }
{
    let items = read_text(alloc, b)?;
    Ok(CUnit { items })
}
