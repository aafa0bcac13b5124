// Parts of a text that stand one after another.
ghost use Rattle.std.specs.Prelude.{◌≡◌, ◌<◌, ◌++◌, ℕ, List, length, IfOk, OnOk, IfSome, IfNone};
ghost use Rattle.object_text.specs.Parts.{texts, IsFirst, NoFirst, IsRun};

use crate::lines::{
    read_export, read_import, read_name, read_use, write_export, write_import, write_name,
    write_use,
};
use core_tree::{ImportItem, Use};
use iface_text::Row;
use scheme_data::{List, OutOfMemory, Text};
use std::alloc::Global;

/// A part with which some bytes begin, and what follows it.
#[derive(Drop)]
pub struct First<'a, T> {
    pub part: T,
    pub rest: &'a [u8],
}

/// The parts with which some bytes begin, and what follows them.
#[derive(Drop)]
pub struct Run<'a, T> {
    pub parts: List<T>,
    pub rest: &'a [u8],
}

/// What may stand several times in a text, one after another.
pub trait Part: Sized + Drop {
    /// What it is spelled.
    ghost spelled: { Self → List ℕ };

    /// Which are right.
    ghost IsPart: { Self → Type 0 };

    /// What may follow.
    ghost Ends: { List ℕ → Type 0 };

    /// The part with which the bytes begin; none where they begin with no part.
    fn read_first<'a>(
        alloc: Global,
        bytes: &'a [u8],
    ) -> Result<Option<First<'a, Self>>, OutOfMemory>
        ensures some { IfOk result (λ first. IfSome first (λ f. IsFirst spelled IsPart Ends bytes.now f.part f.rest.now)) }
        ensures shorter { IfOk result (λ first. IfSome first (λ f. length f.rest.now < length bytes.now)) }
        ensures none { IfOk result (λ first. IfNone first (NoFirst spelled IsPart Ends bytes.now)) };

    /// Adds it at the end of a text.
    fn write(&self, text: &mut Text) -> Result<(), OutOfMemory>
        ensures { OnOk result (text.new ≡ text.old ++ spelled self.now) };
}

/// All the parts with which the bytes begin.
pub fn read_run<'a, T: Part>(alloc: Global, bytes: &'a [u8]) -> Result<Run<'a, T>, OutOfMemory>
    requires { T.Ends bytes.now }
    ensures { IfOk result (λ run. IsRun T.spelled T.IsPart T.Ends bytes.now run.parts run.rest.now) }
{
    let mut parts = List::new(alloc);
    let mut rest = bytes;
    while let Some(first) = T::read_first(alloc, rest)? {
        parts.push(first.part)?;
        rest = first.rest;
    }
    Ok(Run { parts, rest })
}

/// Adds the parts at the end of a text, one after another.
pub fn write_run<T: Part>(text: &mut Text, parts: &[T]) -> Result<(), OutOfMemory>
    ensures { OnOk result (text.new ≡ text.old ++ texts T.spelled parts.now) }
{
    for part in parts {
        part.write(text)?;
    }
    Ok(())
}

/// A name, with a blank before it.
impl Part for Text {
    ghost use Rattle.scheme_data.specs.Symbols.{IsSymbol};
    ghost use Rattle.object_text.specs.Header.{name_text, EndsName};

    ghost spelled = { name_text };

    ghost IsPart = { IsSymbol };

    ghost Ends = { EndsName };

    fn read_first<'a>(
        alloc: Global,
        bytes: &'a [u8],
    ) -> Result<Option<First<'a, Text>>, OutOfMemory> {
        read_name(alloc, bytes)
    }

    fn write(&self, text: &mut Text) -> Result<(), OutOfMemory> {
        write_name(text, self)
    }
}

/// A line `import`.
impl Part for ImportItem {
    ghost use Rattle.core_tree.specs.WellFormed.{IsImport};
    ghost use Rattle.object_text.specs.Header.{import_text};
    ghost use Rattle.object_text.specs.Parts.{Anything};

    ghost spelled = { import_text };

    ghost IsPart = { IsImport };

    ghost Ends = { Anything };

    fn read_first<'a>(
        alloc: Global,
        bytes: &'a [u8],
    ) -> Result<Option<First<'a, ImportItem>>, OutOfMemory> {
        read_import(alloc, bytes)
    }

    fn write(&self, text: &mut Text) -> Result<(), OutOfMemory> {
        write_import(text, self)
    }
}

/// A line `use` or `need`.
impl Part for Use {
    ghost use Rattle.object_text.specs.Format.{IsUseRow};
    ghost use Rattle.object_text.specs.Header.{use_text};
    ghost use Rattle.object_text.specs.Parts.{Anything};

    ghost spelled = { use_text };

    ghost IsPart = { IsUseRow };

    ghost Ends = { Anything };

    fn read_first<'a>(
        alloc: Global,
        bytes: &'a [u8],
    ) -> Result<Option<First<'a, Use>>, OutOfMemory> {
        read_use(alloc, bytes)
    }

    fn write(&self, text: &mut Text) -> Result<(), OutOfMemory> {
        write_use(text, self)
    }
}

/// A line `export`.
impl Part for Row {
    ghost use Rattle.object_text.specs.Header.{export_text, IsUntypedRow};
    ghost use Rattle.object_text.specs.Parts.{Anything};

    ghost spelled = { export_text };

    ghost IsPart = { IsUntypedRow };

    ghost Ends = { Anything };

    fn read_first<'a>(
        alloc: Global,
        bytes: &'a [u8],
    ) -> Result<Option<First<'a, Row>>, OutOfMemory> {
        read_export(alloc, bytes)
    }

    fn write(&self, text: &mut Text) -> Result<(), OutOfMemory> {
        write_export(text, self)
    }
}
