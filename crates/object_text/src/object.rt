ghost use Rattle.std.specs.Prelude.{◌≡◌, IfOk};
ghost use Rattle.object_text.specs.Format.{ObjectTree, ObjectText, object_tree, CanBeWritten};
ghost use Rattle.object_text.specs.Answers.{ReadsObject, GivesObject};

use crate::header::{read_header, write_header};
use c_read::{CReadErr, read_unit};
use c_tree::CUnit;
use c_write::write_unit;
use core_tree::{ImportItem, Use};
use iface_text::Row;
use scheme_data::{List, OutOfMemory, Text};
use std::alloc::Global;

/// What the compiler makes of a module: its name, its import items, what it takes from other modules, the rows of what it exports, the name of its main function, if it has one, and its C.
#[derive(Drop)]
pub struct Object {
    pub module_name: Text,
    pub imports: List<ImportItem>,
    pub uses: List<Use>,
    pub exports: List<Row>,
    pub main: Option<Text>,
    pub unit: CUnit,
}

/// Why a text isn't read.
#[derive(Clone, Copy, Debug, PartialEq, Eq)]
pub enum ObjectErr {
    /// No object has this text.
    NotObject,
    /// Memory was wanted and not given.
    Memory,
}

impl From<OutOfMemory> for ObjectErr {
    ghost use Rattle.object_text.specs.declared.object.ObjectErr.TheVariants.{Memory};

    ghost from_gives = { λ _ e. e ≡ Memory };

    fn from(_: OutOfMemory) -> Self {
        ObjectErr::Memory
    }
}

/// A text of the object, whose names are right.
pub fn write_object(alloc: Global, o: &Object) -> Result<Text, OutOfMemory>
    requires { CanBeWritten (object_tree o.now) }
    ensures { IfOk result (λ text. ObjectText text (object_tree o.now)) }
{
    let unit = write_unit(alloc, &o.unit)?;
    let mut text = Text::new(alloc);
    write_header(&mut text, o)?;
    text.extend(unit.as_bytes())?;
    Ok(text)
}

/// The object of a text.
pub fn read_object(alloc: Global, b: &[u8]) -> Result<Object, ObjectErr>
    // What is read has this text, and what is refused is no object's.
    ensures answer { ReadsObject b.now result }
    // The object of the text is what is read, unless memory runs out.
    ensures given { (o : ObjectTree) → ObjectText b.now o → GivesObject o result }
{
    let Some(header) = read_header(alloc, b)? else {
        return Err(ObjectErr::NotObject);
    };
    match read_unit(alloc, header.unit) {
        Ok(unit) => Ok(Object {
            module_name: header.module_name,
            imports: header.imports,
            uses: header.uses,
            exports: header.exports,
            main: header.main,
            unit,
        }),
        Err(CReadErr::NotC(_)) => Err(ObjectErr::NotObject),
        Err(CReadErr::Memory) => Err(ObjectErr::Memory),
    }
}
