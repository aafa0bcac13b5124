// Texts as objects.
ghost use Rattle.std.specs.Prelude.{◌≡◌, [], IfOk, IfSome, IfNone, map};
ghost use Rattle.iface_text.specs.Format.{AreRows};
ghost use Rattle.object_text.specs.Format.{ObjectTree, ObjectText, object_tree};
ghost use Rattle.linker.specs.Links.{AreNoObjects};
ghost use Rattle.linker.specs.Modules.{row_names, trees, IsOnlyObject, AreOnlyObjects};

use crate::indexed::Indexed;
use iface_text::Row;
use name_table::NameTable;
use object_text::{ObjectErr, read_object};
use scheme_data::{OutOfMemory, Text};
use std::alloc::Global;

/// The objects of these texts; none where a text is that of no object.
pub fn read_objects(alloc: Global, texts: &[Text]) -> Result<Option<Vec<Indexed>>, OutOfMemory>
    ensures some { IfOk result (λ objects. IfSome objects (λ os. AreOnlyObjects texts.now (trees os.items))) }
    ensures none { IfOk result (λ objects. IfNone objects (AreNoObjects texts.now)) }
{
    let mut objects = Vec::new(alloc);
    for text in texts {
        let Some(object) = read_indexed(alloc, text.as_bytes())? else {
            return Ok(None);
        };
        objects.push(object)?;
    }
    Ok(Some(objects))
}

/// The object of a text, with the names of its exports.
fn read_indexed(alloc: Global, text: &[u8]) -> Result<Option<Indexed>, OutOfMemory>
    ensures some { IfOk result (λ object. IfSome object (λ o. IsOnlyObject text.now (object_tree o.object))) }
    ensures none { IfOk result (λ object. IfNone object ((o : ObjectTree) → ObjectText text.now o → ⊥)) }
{
    let object = match read_object(alloc, text) {
        Ok(object) => object,
        Err(ObjectErr::NotObject) => return Ok(None),
        Err(ObjectErr::Memory) => return Err(OutOfMemory),
    };
    let exported = exported_names(alloc, object.exports.as_slice())?;
    Ok(Some(Indexed { object, exported }))
}

/// The names of rows.
fn exported_names(alloc: Global, rows: &[Row]) -> Result<NameTable, OutOfMemory>
    requires { AreRows [] rows.now }
    ensures { IfOk result (λ names. names ≡ row_names rows.now) }
{
    let mut names = NameTable::new(alloc);
    for row in rows {
        names.insert(row.name.as_bytes())?;
    }
    Ok(names)
}
