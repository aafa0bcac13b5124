// Fixnums are the numbers from -2^60 to 2^60 - 1. The word of n is 8 n in two's complement.
ghost use Rattle.std.specs.Prelude.{◌≡◌, ◌%◌, IsTrue, ◌↔◌};
ghost use Rattle.scheme_data.specs.Fixnum.{IsFixnum, is_fixnum, fixnum_word, IsFixnumWord};

/// The word of a fixnum.
pub fn box_long(n: i64) -> u64
    requires { IsFixnum n }
    ensures { result ≡ fixnum_word n }
{
    (n * 8).cast_unsigned()
}

/// The fixnum of a word.
pub fn unbox_long(w: u64) -> i64
    requires { IsFixnumWord w }
    ensures fixnum { IsFixnum result }
    ensures word { fixnum_word result ≡ w }
{
    w.cast_signed() / 8
}

/// Whether a word is that of a fixnum.
pub fn is_long(w: u64) -> bool
    ensures { IsTrue result ↔ IsFixnumWord w }
{
    w % 8 == 0
}

/// Whether a number is a fixnum.
pub fn is_in_range(n: i64) -> bool
    ensures { result ≡ is_fixnum n }
{
    -(1 << 60) <= n && n < 1 << 60
}
