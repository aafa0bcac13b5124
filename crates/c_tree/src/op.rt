ghost use Rattle.std.specs.Prelude.{◌≡◌, ◌++◌, length, OnOk, slice_get};
ghost use Rattle.c_tree.specs.Operations.{c_type, wanted, op_text, wants_of, takes_more, wants_at, gives_of, is_extern, own_name, IsRowOf};

use crate::name_texts::push_mangled;
use crate::tree::CTy;
use prim_table::{Primitive, Ty, prim_row};
use scheme_data::{OutOfMemory, Text};

/// An operation of the runtime. `Get` and `Put` read and set a slot that holds a C type.
#[derive(Clone, Copy, Debug, PartialEq, Eq)]
pub enum Op {
    BoxLong,
    BoxChar,
    BoxBool,
    UnboxLong,
    UnboxChar,
    UnboxBool,
    CheckPair,
    CheckVector,
    CheckBstring,
    CheckSymbol,
    CheckProcedure,
    Truth,
    Closure,
    Env,
    Cell,
    Get(CTy),
    Put(CTy),
    Call,
    Str,
    Raise,
    Args,
    Status,
    Primitive(Primitive),
}

/// What an operation asks of an argument.
#[derive(Clone, Copy, Debug, PartialEq, Eq)]
pub enum Wants {
    /// An atom of a C type.
    AType(CTy),
    /// The number of an error, as it is written.
    AnError,
    AText,
    /// The address of an entry.
    AnEntry,
    /// How many arguments a closure takes, as it is written: 0 to 255.
    AnArity,
    /// How many slots a block has, as it is written: 0 to 16,777,215.
    Slots,
    /// The place of a slot: any fixnum, as it is written.
    ASlot,
}

/// The row of an operation that stands here.
#[derive(Clone, Copy)]
pub struct OwnRow {
    name: &'static [u8],
    wants: &'static [Wants],
    gives: CTy,
}

/// Where the row of an operation stands: here, or in the table of primitives.
#[derive(Clone, Copy)]
pub enum Row {
    Own(OwnRow),
    OfPrimitive(Primitive),
}

const LONG: Wants = Wants::AType(CTy::Long);

const CHAR: Wants = Wants::AType(CTy::Char);

const INT: Wants = Wants::AType(CTy::Int);

const OBJ: Wants = Wants::AType(CTy::Obj);

macro_rules! own {
    ($name:literal, [$($wants:expr),*], $gives:ident) => {
        Row::Own(OwnRow {
            name: $name,
            wants: &[$($wants),*],
            gives: CTy::$gives,
        })
    };
}

fn c_type(t: Ty) -> CTy
    ensures { result ≡ c_type t }
{
    match t {
        Ty::Long => CTy::Long,
        Ty::Char => CTy::Char,
        Ty::Bool => CTy::Int,
        _ => CTy::Obj,
    }
}

fn wanted(t: Ty) -> Wants
    ensures { result ≡ wanted t }
{
    Wants::AType(c_type(t))
}

fn get_row(t: CTy) -> Row
    ensures { IsRowOf (Op.Get t) result }
{
    match t {
        CTy::Obj => own!(b"bgl_get_obj", [OBJ, Wants::ASlot], Obj),
        CTy::Long => own!(b"bgl_get_long", [OBJ, Wants::ASlot], Long),
        CTy::Char => own!(b"bgl_get_char", [OBJ, Wants::ASlot], Char),
        CTy::Int => own!(b"bgl_get_int", [OBJ, Wants::ASlot], Int),
    }
}

fn put_row(t: CTy) -> Row
    ensures { IsRowOf (Op.Put t) result }
{
    match t {
        CTy::Obj => own!(b"bgl_put_obj", [OBJ, Wants::ASlot, OBJ], Int),
        CTy::Long => own!(b"bgl_put_long", [OBJ, Wants::ASlot, LONG], Int),
        CTy::Char => own!(b"bgl_put_char", [OBJ, Wants::ASlot, CHAR], Int),
        CTy::Int => own!(b"bgl_put_int", [OBJ, Wants::ASlot, INT], Int),
    }
}

impl Op {
    fn row(self) -> Row
        ensures { IsRowOf self result }
    {
        match self {
            Op::BoxLong => own!(b"bgl_box_long", [LONG], Obj),
            Op::BoxChar => own!(b"bgl_box_char", [CHAR], Obj),
            Op::BoxBool => own!(b"bgl_box_bool", [INT], Obj),
            Op::UnboxLong => own!(b"bgl_unbox_long", [OBJ], Long),
            Op::UnboxChar => own!(b"bgl_unbox_char", [OBJ], Char),
            Op::UnboxBool => own!(b"bgl_unbox_bool", [OBJ], Int),
            Op::CheckPair => own!(b"bgl_check_pair", [OBJ], Obj),
            Op::CheckVector => own!(b"bgl_check_vector", [OBJ], Obj),
            Op::CheckBstring => own!(b"bgl_check_bstring", [OBJ], Obj),
            Op::CheckSymbol => own!(b"bgl_check_symbol", [OBJ], Obj),
            Op::CheckProcedure => own!(b"bgl_check_procedure", [OBJ], Obj),
            Op::Truth => own!(b"bgl_truth", [OBJ], Int),
            Op::Closure => own!(
                b"bgl_closure",
                [Wants::AnEntry, Wants::AnArity, Wants::Slots],
                Obj
            ),
            Op::Env => own!(b"bgl_env", [Wants::Slots], Obj),
            Op::Cell => own!(b"bgl_cell", [], Obj),
            Op::Get(t) => get_row(t),
            Op::Put(t) => put_row(t),
            Op::Call => own!(b"bgl_call", [OBJ], Obj),
            Op::Str => own!(b"bgl_string", [Wants::AText], Obj),
            Op::Raise => own!(b"bgl_raise", [Wants::AnError, Wants::AText], Int),
            Op::Args => own!(b"bgl_args", [], Obj),
            Op::Status => own!(b"bgl_status", [OBJ], Int),
            Op::Primitive(p) => Row::OfPrimitive(p),
        }
    }

    /// The type of what it gives.
    pub fn gives(self) -> CTy
        ensures { result ≡ gives_of self }
    {
        match self.row() {
            Row::Own(row) => row.gives,
            Row::OfPrimitive(p) => c_type(prim_row(p).result),
        }
    }

    /// How many arguments it takes at least.
    pub fn arity(self) -> usize
        ensures { result ≡ length (wants_of self) }
    {
        match self.row() {
            Row::Own(row) => row.wants.len(),
            Row::OfPrimitive(p) => prim_row(p).count as usize,
        }
    }

    /// Whether it takes any number of further objects.
    pub fn takes_more(self) -> bool
        ensures { result ≡ takes_more self }
    {
        matches!(self, Op::Call)
    }

    /// What it asks of the argument at a place; none where it takes none there.
    pub fn wants(self, place: usize) -> Option<Wants>
        ensures { result ≡ wants_at self place }
    {
        let listed = match self.row() {
            Row::Own(row) => row.wants.get(place).copied(),
            Row::OfPrimitive(p) => wants_of_primitive(p, place),
        };
        if listed.is_none() && self.takes_more() {
            return Some(OBJ);
        }
        listed
    }

    /// Its name, of an operation whose row stands here; nothing of a primitive.
    pub fn own_name(self) -> &'static [u8]
        ensures { result.now ≡ own_name self }
    {
        match self.row() {
            Row::Own(row) => row.name,
            Row::OfPrimitive(_) => b"",
        }
    }

    /// Writes its name behind a text.
    pub fn push_name(self, text: &mut Text) -> Result<(), OutOfMemory>
        ensures { OnOk result (text.new ≡ text.old ++ op_text self) }
    {
        match self.row() {
            Row::Own(row) => text.extend(row.name),
            Row::OfPrimitive(p) => push_primitive_name(p, text),
        }
    }
}

fn wants_of_primitive(p: Primitive, place: usize) -> Option<Wants>
    ensures { result ≡ slice_get (wants_of (Op.Primitive p)) place }
{
    let row = prim_row(p);
    if place < row.count as usize {
        Some(wanted(row.params[place]))
    } else {
        None
    }
}

// Whether it is an extern C function, which has its own name in a C text.
fn is_extern(p: Primitive) -> bool
    ensures { result ≡ is_extern p }
{
    matches!(
        p,
        Primitive::BitAnd
            | Primitive::BitOr
            | Primitive::BitXor
            | Primitive::BitNot
            | Primitive::BitShiftLeft
            | Primitive::BitShiftRight
    )
}

fn push_primitive_name(p: Primitive, text: &mut Text) -> Result<(), OutOfMemory>
    ensures { OnOk result (text.new ≡ text.old ++ op_text (Op.Primitive p)) }
{
    let name = prim_row(p).name;
    if is_extern(p) {
        return text.extend(name);
    }
    text.extend(b"bgl_p_")?;
    push_mangled(text, name)
}
