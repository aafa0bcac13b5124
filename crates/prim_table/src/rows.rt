ghost use Rattle.std.specs.Prelude.{◌≡◌, ◌≤◌, Some, length, take};
ghost use Rattle.prim_table.specs.Table.{name_of, params_of, result_of, any_named};

use crate::{Primitive, Ty};

/// A row of the table: the first `count` entries of `params` are the types of the parameters.
#[derive(Clone, Copy, Debug, PartialEq, Eq)]
pub struct PrimRow {
    pub name: &'static [u8],
    pub count: u32,
    pub params: [Ty; 3],
    pub result: Ty,
}

macro_rules! row {
    ($name:literal, [], $result:ident) => {
        row!($name, 0, Obj, Obj, Obj, $result)
    };
    ($name:literal, [$first:ident], $result:ident) => {
        row!($name, 1, $first, Obj, Obj, $result)
    };
    ($name:literal, [$first:ident, $second:ident], $result:ident) => {
        row!($name, 2, $first, $second, Obj, $result)
    };
    ($name:literal, [$first:ident, $second:ident, $third:ident], $result:ident) => {
        row!($name, 3, $first, $second, $third, $result)
    };
    ($name:literal, $count:literal, $first:ident, $second:ident, $third:ident, $result:ident) => {
        PrimRow {
            name: $name,
            count: $count,
            params: [Ty::$first, Ty::$second, Ty::$third],
            result: Ty::$result,
        }
    };
}

// In the order of the variants of `Primitive`.
static TABLE: [PrimRow; 81] = [
    row!(b"+", [Long, Long], Long),
    row!(b"-", [Long, Long], Long),
    row!(b"*", [Long, Long], Long),
    row!(b"+fx", [Long, Long], Long),
    row!(b"-fx", [Long, Long], Long),
    row!(b"*fx", [Long, Long], Long),
    row!(b"quotient", [Long, Long], Long),
    row!(b"remainder", [Long, Long], Long),
    row!(b"modulo", [Long, Long], Long),
    row!(b"=", [Long, Long], Bool),
    row!(b"<", [Long, Long], Bool),
    row!(b">", [Long, Long], Bool),
    row!(b"<=", [Long, Long], Bool),
    row!(b">=", [Long, Long], Bool),
    row!(b"=fx", [Long, Long], Bool),
    row!(b"<fx", [Long, Long], Bool),
    row!(b">fx", [Long, Long], Bool),
    row!(b"<=fx", [Long, Long], Bool),
    row!(b">=fx", [Long, Long], Bool),
    row!(b"zero?", [Long], Bool),
    row!(b"even?", [Long], Bool),
    row!(b"odd?", [Long], Bool),
    row!(b"not", [Obj], Bool),
    row!(b"null?", [Obj], Bool),
    row!(b"pair?", [Obj], Bool),
    row!(b"vector?", [Obj], Bool),
    row!(b"string?", [Obj], Bool),
    row!(b"symbol?", [Obj], Bool),
    row!(b"char?", [Obj], Bool),
    row!(b"boolean?", [Obj], Bool),
    row!(b"integer?", [Obj], Bool),
    row!(b"procedure?", [Obj], Bool),
    row!(b"eof-object?", [Obj], Bool),
    row!(b"list?", [Obj], Bool),
    row!(b"eq?", [Obj, Obj], Bool),
    row!(b"eqv?", [Obj, Obj], Bool),
    row!(b"cons", [Obj, Obj], Pair),
    row!(b"car", [Pair], Obj),
    row!(b"cdr", [Pair], Obj),
    row!(b"set-car!", [Pair, Obj], Obj),
    row!(b"set-cdr!", [Pair, Obj], Obj),
    row!(b"cadr", [Obj], Obj),
    row!(b"cddr", [Obj], Obj),
    row!(b"caddr", [Obj], Obj),
    row!(b"length", [Obj], Long),
    row!(b"append", [Obj, Obj], Obj),
    row!(b"reverse", [Obj], Obj),
    row!(b"memq", [Obj, Obj], Obj),
    row!(b"assq", [Obj, Obj], Obj),
    row!(b"make-vector", [Long, Obj], Vector),
    row!(b"vector-length", [Vector], Long),
    row!(b"vector-ref", [Vector, Long], Obj),
    row!(b"vector-set!", [Vector, Long, Obj], Obj),
    row!(b"char->integer", [Char], Long),
    row!(b"integer->char", [Long], Char),
    row!(b"char=?", [Char, Char], Bool),
    row!(b"char<?", [Char, Char], Bool),
    row!(b"make-string", [Long, Char], Bstring),
    row!(b"string-length", [Bstring], Long),
    row!(b"string-ref", [Bstring, Long], Char),
    row!(b"string=?", [Bstring, Bstring], Bool),
    row!(b"string<?", [Bstring, Bstring], Bool),
    row!(b"string-append", [Bstring, Bstring], Bstring),
    row!(b"substring", [Bstring, Long, Long], Bstring),
    row!(b"number->string", [Long], Bstring),
    row!(b"string->number", [Bstring], Obj),
    row!(b"symbol->string", [Symbol], Bstring),
    row!(b"display", [Obj], Obj),
    row!(b"write", [Obj], Obj),
    row!(b"newline", [], Obj),
    row!(b"write-char", [Char], Obj),
    row!(b"read-char", [], Obj),
    row!(b"peek-char", [], Obj),
    row!(b"error", [Obj, Obj, Obj], Obj),
    row!(b"list", [], Obj),
    row!(b"bgl_bit_and", [Long, Long], Long),
    row!(b"bgl_bit_or", [Long, Long], Long),
    row!(b"bgl_bit_xor", [Long, Long], Long),
    row!(b"bgl_bit_not", [Long], Long),
    row!(b"bgl_bit_lsh", [Long, Long], Long),
    row!(b"bgl_bit_rsh", [Long, Long], Long),
];

fn row(p: Primitive) -> PrimRow
    ensures name { result.name.now ≡ name_of p }
    ensures params { take result.count result.params ≡ params_of p }
    ensures count { result.count ≡ length (params_of p) }
    ensures gives { result.result ≡ result_of p }
{
    TABLE[p as usize]
}

/// The row of a primitive or extern.
#[tactic(auto, using(crate::proofs::Names::found_again))]
pub fn prim_row(p: Primitive) -> PrimRow
    ensures name { result.name.now ≡ name_of p }
    ensures params { take result.count result.params ≡ params_of p }
    ensures count { result.count ≡ length (params_of p) }
    ensures gives { result.result ≡ result_of p }
    // Its name finds it again, so no two have one name.
    ensures found { any_named result.name.now ≡ Some p }
{
    row(p)
}
