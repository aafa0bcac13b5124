use expander::ExpandErr;
use module_head::HeadErr;
use scheme_data::{LimitKind, OutOfMemory, Place, Text};
use scheme_read::ReadErr;

/// Why a source isn't compiled.
#[derive(Debug, Drop)]
pub enum UnitErr {
    /// No data are spelled so: at the first token that no data could have there, or at the end of a source that isn't whole.
    Syntax(Place),
    /// It has more bytes, or data in each other, than may be; or its head is right, and so are the rules of its macros, and expanding it
    /// takes more uses of macros, more data made by these, or more lists in each other than may be.
    Limit(LimitKind),
    /// It is read, and its first datum is no head of a module: at the innermost module form, clause or item that isn't right.
    Header(Place),
    /// It is read, and its head declares this name twice.
    Duplicate(Text),
    /// Its head is right, and a `define-syntax` at its top level, which stands here, has no rules that could be used.
    BadRules(Place),
    /// Its head is right, and so are the rules of its macros, and a use of a macro that stands here matches none of them.
    NoRule(Place),
    /// Likewise, and a form that stands here is neither of the core grammar nor a derived one.
    Form(Place),
    /// None of these comes, and it isn't by the forms that are built; or an interface with which it is compiled isn't one, or lacks a name that it imports.
    NotBuilt,
    /// Memory was wanted and not given.
    Memory,
}

impl From<OutOfMemory> for UnitErr {
    ghost use Rattle.std.specs.Prelude.{◌≡◌};
    ghost use Rattle.unit_compile.specs.declared.error.UnitErr.TheVariants.{Memory};

    ghost from_gives = { λ _ e. e ≡ Memory };

    fn from(_: OutOfMemory) -> Self {
        UnitErr::Memory
    }
}

impl From<ReadErr> for UnitErr {
    ghost use Rattle.std.specs.Prelude.{◌≡◌};
    ghost use Rattle.unit_compile.specs.Compilation.{refusal_for};

    ghost from_gives = { λ fault e. e ≡ refusal_for fault };

    fn from(fault: ReadErr) -> Self {
        match fault {
            ReadErr::Syntax(at) => UnitErr::Syntax(at),
            ReadErr::Limit(kind, _) => UnitErr::Limit(kind),
            ReadErr::Memory => UnitErr::Memory,
        }
    }
}

impl From<HeadErr> for UnitErr {
    ghost use Rattle.std.specs.Prelude.{◌≡◌};
    ghost use Rattle.unit_compile.specs.Compilation.{refusal_of_head};

    ghost from_gives = { λ breach e. e ≡ refusal_of_head breach };

    fn from(breach: HeadErr) -> Self {
        match breach {
            HeadErr::Header(at) => UnitErr::Header(at),
            HeadErr::Duplicate(name) => UnitErr::Duplicate(name),
            HeadErr::Memory => UnitErr::Memory,
        }
    }
}

impl From<ExpandErr> for UnitErr {
    ghost use Rattle.std.specs.Prelude.{◌≡◌};
    ghost use Rattle.unit_compile.specs.Compilation.{refusal_of_expansion};

    ghost from_gives = { λ breach e. e ≡ refusal_of_expansion breach };

    fn from(breach: ExpandErr) -> Self {
        match breach {
            ExpandErr::BadRules(at) => UnitErr::BadRules(at),
            ExpandErr::NoRule(at) => UnitErr::NoRule(at),
            ExpandErr::Form(at) => UnitErr::Form(at),
            ExpandErr::Limit(kind) => UnitErr::Limit(kind),
            ExpandErr::Memory => UnitErr::Memory,
        }
    }
}
