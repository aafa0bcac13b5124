// The words that no program chooses.
ghost use Rattle.std.specs.Prelude.{◌≡◌, ◌∷◌, ◌++◌, [], ◌≤◌, IsTrue, MatchOption, codes, drop, find, length, map, None, true};
ghost use Rattle.c_tree.specs.Names.{begins_with};
ghost use Rattle.c_tree.specs.Operations.{op_named};
ghost use Rattle.c_words.specs.declared.kind.WordKind.TheVariants.{Other};
ghost use Rattle.c_words.specs.Kinds.{reserved, fixed_kind, is_reserved, by_reserved};
ghost use Rattle.c_words.specs.Walks.{ended};
ghost use Rattle.c_words.specs.Search.{are_in_order};
ghost use Rattle.c_words.specs.Fixed.{as_reserved, plain_operations, starts_with, with_mangling};

use crate::cursor::Cursor;
use crate::kind::WordKind;
use crate::manglings::{Spelled, next_spelled};
use crate::search::{Named, Search};
use c_tree::{CTy, Op};
use prim_table::{Primitive, prim_row, primitives_by_name};

/// A word of the language, and what it is.
#[derive(Clone, Copy)]
pub struct ReservedWord {
    word: &'static [u8],
    kind: WordKind,
}

impl Named for ReservedWord {
    ghost spelled = { λ r. r.word.now };

    fn name(&self) -> &'static [u8] {
        self.word
    }
}

/// An operation by its name in a C text, where this isn't mangled.
impl Named for Op {
    ghost use Rattle.c_words.specs.Fixed.{plain_name};

    ghost spelled = { plain_name };

    fn name(&self) -> &'static [u8] {
        match *self {
            Op::Primitive(p) => prim_row(p).name,
            own => own.own_name(),
        }
    }
}

/// A primitive by its name in a source.
impl Named for Primitive {
    ghost use Rattle.prim_table.specs.Table.{name_of};

    ghost spelled = { name_of };

    fn name(&self) -> &'static [u8] {
        prim_row(*self).name
    }
}

macro_rules! reserved {
    ($word:literal, $kind:expr) => {
        ReservedWord {
            word: $word,
            kind: $kind,
        }
    };
}

// In the order of the words' bytes.
static RESERVED: [ReservedWord; 19] = [
    reserved!(b"BGL_CATCH", WordKind::Catch),
    reserved!(b"BGL_EOF", WordKind::Eof),
    reserved!(b"BGL_FALSE", WordKind::False),
    reserved!(b"BGL_NIL", WordKind::Nil),
    reserved!(b"BGL_PROTECT", WordKind::Protect),
    reserved!(b"BGL_TRUE", WordKind::True),
    reserved!(b"BGL_UNSPEC", WordKind::Unspec),
    reserved!(b"char", WordKind::Type(CTy::Char)),
    reserved!(b"else", WordKind::Else),
    reserved!(b"extern", WordKind::Extern),
    reserved!(b"for", WordKind::For),
    reserved!(b"goto", WordKind::Goto),
    reserved!(b"if", WordKind::If),
    reserved!(b"int", WordKind::Type(CTy::Int)),
    reserved!(b"long", WordKind::Type(CTy::Long)),
    reserved!(b"main", WordKind::Function),
    reserved!(b"obj", WordKind::Type(CTy::Obj)),
    reserved!(b"return", WordKind::Return),
    reserved!(b"void", WordKind::Void),
];

// In the order of the names' bytes.
static PLAIN_OPERATIONS: [Op; 34] = [
    Op::Args,
    Op::Primitive(Primitive::BitAnd),
    Op::Primitive(Primitive::BitShiftLeft),
    Op::Primitive(Primitive::BitNot),
    Op::Primitive(Primitive::BitOr),
    Op::Primitive(Primitive::BitShiftRight),
    Op::Primitive(Primitive::BitXor),
    Op::BoxBool,
    Op::BoxChar,
    Op::BoxLong,
    Op::Call,
    Op::Cell,
    Op::CheckBstring,
    Op::CheckPair,
    Op::CheckProcedure,
    Op::CheckSymbol,
    Op::CheckVector,
    Op::Closure,
    Op::Env,
    Op::Get(CTy::Char),
    Op::Get(CTy::Int),
    Op::Get(CTy::Long),
    Op::Get(CTy::Obj),
    Op::Put(CTy::Char),
    Op::Put(CTy::Int),
    Op::Put(CTy::Long),
    Op::Put(CTy::Obj),
    Op::Raise,
    Op::Status,
    Op::Str,
    Op::Truth,
    Op::UnboxBool,
    Op::UnboxChar,
    Op::UnboxLong,
];

fn reserved_words() -> &'static [ReservedWord]
    ensures { map as_reserved result.now ≡ reserved }
{
    &RESERVED
}

fn plain_operations() -> &'static [Op]
    ensures { result.now ≡ plain_operations }
{
    &PLAIN_OPERATIONS
}

/// What a word is that no program chooses, from behind its first byte.
pub fn fixed_kind(first: u8, cursor: &mut Cursor<'_>) -> WordKind
    ensures kind { result ≡ fixed_kind (first ∷ cursor.old.left) }
    ensures end { cursor.new ≡ ended cursor.old }
{
    if first != b'b' {
        return reserved_kind(first, cursor);
    }
    if !goes_over(b"gl_", cursor) {
        cursor.finish();
        return WordKind::Other;
    }
    match operation(cursor) {
        Some(op) => WordKind::Operation(op),
        None => WordKind::Other,
    }
}

fn reserved_kind(first: u8, cursor: &mut Cursor<'_>) -> WordKind
    ensures kind { result ≡ by_reserved (find (is_reserved (first ∷ cursor.old.left)) reserved) Other }
    ensures end { cursor.new ≡ ended cursor.old }
{
    let mut search = Search::new(reserved_words(), 0);
    search.narrow(first);
    match search.find(cursor) {
        Some(reserved) => reserved.kind,
        None => WordKind::Other,
    }
}

// Goes over a text, if the bytes that are left begin with it; else over a part of it.
fn goes_over(text: &[u8], cursor: &mut Cursor<'_>) -> bool
    ensures whole { cursor.new.whole ≡ cursor.old.whole }
    ensures starts { result ≡ starts_with text.now cursor.old.left }
    ensures left { result ≡ true → cursor.new.left ≡ drop (length text.now) cursor.old.left }
{
    for byte in text {
        if !is_next(*byte, cursor) {
            return false;
        }
        cursor.advance();
    }
    true
}

fn is_next(byte: u8, cursor: &Cursor<'_>) -> bool
    ensures { result ≡ begins_with byte cursor.now.left }
{
    match cursor.next() {
        Some(next) => byte == next,
        None => false,
    }
}

// The operation of a word, from behind its `bgl_`.
fn operation(cursor: &mut Cursor<'_>) -> Option<Op>
    ensures op { result ≡ op_named (codes "bgl_" ++ cursor.old.left) }
    ensures end { cursor.new ≡ ended cursor.old }
{
    let mut search = Search::new(plain_operations(), 4);
    if !is_next(b'p', cursor) {
        return search.find(cursor);
    }
    cursor.advance();
    if !is_next(b'_', cursor) {
        search.narrow(b'p');
        return search.find(cursor);
    }
    cursor.advance();
    match find_mangled(Search::new(primitives_by_name(), 0), cursor) {
        Some(p) => Some(Op::Primitive(p)),
        None => None,
    }
}

// The row whose name is the bytes so far and those that the rest of the word spells.
fn find_mangled<T: Named>(mut search: Search<T>, cursor: &mut Cursor<'_>) -> Option<T>
    requires { IsTrue (are_in_order T.spelled search.depth search.rows.now) }
    ensures row { result ≡ with_mangling T.spelled search.entry.depth cursor.old.left search.entry.rows.now }
    ensures end { cursor.new ≡ ended cursor.old }
{
    'bytes: loop {
        match next_spelled(cursor) {
            Spelled::Byte(byte) => search.narrow(byte),
            Spelled::End => return search.found(),
            Spelled::Cut => {
                cursor.finish();
                return None;
            }
            Spelled::Wrong => {
                cursor.finish();
                return None;
            }
        }
    }
}
