// One call on a handed-in object at a time.
ghost use Rattle.std.specs.Prelude.{◌≡◌, ◌≤◌, length, IfOk, IsErrOf};
ghost use Rattle.base_io.specs.Causes.{Rose};
ghost use Rattle.base_io.specs.Contents.{Bytes};
ghost use Rattle.session.specs.Outside.{ReadAll, ReadOne, WroteOne};

use crate::errors::{ReadErr, WriteErr};
use base_io::{FileErr, Files, Found};
use scheme_data::{Text, TextList};
use std::alloc::Global;

/// Reads one file.
pub fn read_one<F: Files>(alloc: Global, files: &mut F, name: &Text) -> Result<Text, ReadErr>
    ensures told { ReadOne (F.contents files.old) name.now result }
    ensures same { F.contents files.new ≡ F.contents files.old }
    ensures later { F.faults files.old ≤ F.faults files.new }
    ensures fault { (n : Bytes) → IsErrOf result (ReadErr.FileFault n) → Rose (F.faults files.old) (F.faults files.new) }
{
    let copy = name.copy(alloc)?;
    let mut into = Text::new(alloc);
    match files.read(name, &mut into) {
        Ok(Found::Yes) => Ok(into),
        Ok(Found::No) => Err(ReadErr::NoFile(copy)),
        Err(FileErr::Failed) => Err(ReadErr::FileFault(copy)),
        Err(FileErr::Memory) => Err(ReadErr::Memory),
    }
}

/// Writes one file.
pub fn write_one<F: Files>(
    alloc: Global,
    files: &mut F,
    name: &Text,
    bytes: &Text,
) -> Result<(), WriteErr>
    ensures told { WroteOne (F.contents files.old) (F.contents files.new) name.now bytes.now result }
    ensures later { F.faults files.old ≤ F.faults files.new }
    ensures fault { (n : Bytes) → IsErrOf result (WriteErr.FileFault n) → Rose (F.faults files.old) (F.faults files.new) }
{
    let copy = name.copy(alloc)?;
    match files.write(name, bytes.as_bytes()) {
        Ok(()) => Ok(()),
        Err(FileErr::Failed) => Err(WriteErr::FileFault(copy)),
        Err(FileErr::Memory) => Err(WriteErr::Memory),
    }
}

/// Reads files in order, up to the first that isn't there or can't be read.
pub fn read_all<F: Files>(alloc: Global, files: &mut F, names: &[Text]) -> Result<TextList, ReadErr>
    ensures told { ReadAll (F.contents files.old) names.now result }
    ensures count { IfOk result (λ texts. length texts ≡ length names.now) }
    ensures same { F.contents files.new ≡ F.contents files.old }
    ensures later { F.faults files.old ≤ F.faults files.new }
    ensures fault { (n : Bytes) → IsErrOf result (ReadErr.FileFault n) → Rose (F.faults files.old) (F.faults files.new) }
{
    let mut texts = TextList::new(alloc);
    for name in names {
        texts.push(read_one(alloc, files, name)?)?;
    }
    Ok(texts)
}
