ghost use Rattle.std.specs.Prelude.{◌≡◌, List, ℕ, IfOk};
ghost use Rattle.iface_text.specs.Format.{IfaceTree, iface_tree, HasSpelling, spelling};
ghost use Rattle.iface_text.specs.Answers.{ReadsIface, GivesIface};

use crate::reader::read;
use crate::writer::write;
use built_table::Ty;
use scheme_data::{List, OutOfMemory, Place, Text};
use std::alloc::Global;

/// What a module exports.
#[derive(Drop)]
pub struct Iface {
    pub module_name: Text,
    pub rows: List<Row>,
}

/// A name that a module exports.
#[derive(Drop)]
pub struct Row {
    pub name: Text,
    pub kind: RowKind,
}

/// What the name stands for.
#[derive(Drop)]
pub enum RowKind {
    /// A function, with the types of its parameters and of its result.
    Fun(List<Ty>, Ty),
}

/// Why a text isn't read.
#[derive(Clone, Copy, Debug, PartialEq, Eq)]
pub enum IfaceErr {
    /// No interface has this text. The place is the first line that no interface could have there, at column 1.
    NotInterface(Place),
    /// Memory was wanted and not given.
    Memory,
}

impl From<OutOfMemory> for IfaceErr {
    ghost use Rattle.iface_text.specs.declared.interface.IfaceErr.TheVariants.{Memory};

    ghost from_gives = { λ _ e. e ≡ Memory };

    fn from(_: OutOfMemory) -> Self {
        IfaceErr::Memory
    }
}

/// The text of the interface.
pub fn write_iface(alloc: Global, i: &Iface) -> Result<Text, OutOfMemory>
    requires { HasSpelling (iface_tree i.now) }
    ensures { IfOk result (λ text. text ≡ spelling (iface_tree i.now)) }
{
    write(alloc, i)
}

/// The interface of the text.
pub fn read_iface(alloc: Global, bytes: &[u8]) -> Result<Iface, IfaceErr>
    // What is read has this text, and a refusal has the first line that no interface could have there.
    ensures answer { ReadsIface bytes.now result }
    // The interface of the text is what is read, unless memory runs out.
    ensures found { (i : IfaceTree) → HasSpelling i → bytes.now ≡ spelling i → GivesIface i result }
{
    read(alloc, bytes)
}
