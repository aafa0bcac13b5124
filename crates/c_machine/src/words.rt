// Words and numbers as 64 bits.
ghost use Rattle.std.specs.Prelude.{◌≡◌, ◌%◌};
ghost use Rattle.scheme_data.specs.Fixnum.{IsFixnum, IsFixnumWord, fixnum_word, long_word};
ghost use Rattle.c_machine.specs.Words.{long_of, fixnum_of, constant_text, byte_of, status_of, truth_of, boxed_truth_of, less_of};

use scheme_data::{box_long, is_long, unbox_long};

/// The words that are no fixnums.
pub const FALSE: u64 = 3;

pub const TRUE: u64 = 11;

pub const NIL: u64 = 19;

pub const UNSPEC: u64 = 27;

pub const EOF: u64 = 35;

#[inline(always)]
pub fn bits_of(n: i64) -> u64
    ensures { result ≡ long_word n }
{
    n.cast_unsigned()
}

#[inline(always)]
pub fn number_of(v: u64) -> i64
    ensures { result ≡ long_of v }
{
    v.cast_signed()
}

#[inline(always)]
pub fn boxed(v: u64) -> u64
    requires { IsFixnum (long_of v) }
    ensures { result ≡ fixnum_word (long_of v) }
{
    box_long(number_of(v))
}

#[inline(always)]
pub fn fixnum(w: u64) -> i64
    requires { IsFixnumWord w }
    ensures { result ≡ fixnum_of w }
{
    unbox_long(w)
}

#[inline(always)]
pub fn unboxed(w: u64) -> u64
    requires { IsFixnumWord w }
    ensures { result ≡ long_word (fixnum_of w) }
{
    bits_of(fixnum(w))
}

/// A number from 0 to 255, and 0 for all else.
pub fn byte(n: i64) -> u8
    ensures { result ≡ byte_of n }
{
    if 0 <= n && n < 256 { n as u8 } else { 0 }
}

pub fn status(w: u64) -> u64
    ensures { result ≡ status_of w }
{
    if is_long(w) {
        u64::from(byte(fixnum(w)))
    } else {
        0
    }
}

/// A truth value as a number: 0 of `#f`, and 1 of all else.
#[inline(always)]
pub fn truth(w: u64) -> u64
    ensures { result ≡ truth_of w }
{
    u64::from(w != FALSE)
}

/// A truth value as a word: `#f` of 0, and `#t` of all else.
#[inline(always)]
pub fn boxed_truth(v: u64) -> u64
    ensures { result ≡ boxed_truth_of v }
{
    if v == 0 { FALSE } else { TRUE }
}

/// 1 where the first number is the smaller one, and else 0.
#[inline(always)]
pub fn is_less(a: u64, b: u64) -> u64
    ensures { result ≡ less_of (long_of a) (long_of b) }
{
    u64::from(number_of(a) < number_of(b))
}

/// How a constant prints.
pub fn text_of_constant(w: u64) -> &'static [u8]
    ensures { result.now ≡ constant_text w }
{
    if w == FALSE {
        return b"#f";
    }
    if w == TRUE {
        return b"#t";
    }
    if w == NIL {
        return b"()";
    }
    if w == UNSPEC {
        return b"#unspecified";
    }
    b"#eof-object"
}
