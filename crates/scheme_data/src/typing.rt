ghost use Rattle.std.specs.Prelude.{◌≡◌};
ghost use Rattle.std.specs.Option.{option_map};
ghost use Rattle.scheme_data.specs.Names.{is_same};
ghost use Rattle.scheme_data.specs.Symbols.{begins_as_symbol};
ghost use Rattle.scheme_data.specs.TypedNames.{begins_type, split, has_type, is_type_word, typed, type_words};
ghost use Rattle.scheme_data.specs.TypedViews.{split_view, typed_view};

use crate::symbol::begins_as_symbol;

/// A name where it is bound, and the word of its type if one is written: `x::t` (the Bigloo manual's typed identifiers).
#[derive(Clone, Copy, Drop)]
pub struct TypedName<'a> {
    pub name: &'a [u8],
    pub ty: Option<&'a [u8]>,
}

/// What stands before the first `::`, and behind it.
#[derive(Clone, Copy, Drop)]
struct Split<'a> {
    before: &'a [u8],
    behind: &'a [u8],
}

fn begins_type(rest: &[u8]) -> bool
    ensures { result ≡ begins_type rest.now }
{
    matches!(rest, [b':', b':', ..])
}

fn split_type(name: &[u8]) -> Option<Split<'_>>
    ensures { option_map split_view result ≡ split name.now }
{
    for i in 0..name.len() {
        if begins_type(&name[i..]) {
            return Some(Split {
                before: &name[..i],
                behind: &name[i + 2..],
            });
        }
    }
    None
}

/// Whether a name has a type, as `x::long`.
pub fn has_type(name: &[u8]) -> bool
    ensures { result ≡ has_type name.now }
{
    split_type(name).is_some()
}

fn is_same(a: &[u8], b: &[u8]) -> bool
    ensures { result ≡ is_same a.now b.now }
{
    a == b
}

fn is_type_word(word: &[u8]) -> bool
    ensures { result ≡ is_type_word word.now }
{
    is_same(word, b"obj")
        || is_same(word, b"long")
        || is_same(word, b"char")
        || is_same(word, b"bool")
        || is_same(word, b"pair")
        || is_same(word, b"vector")
        || is_same(word, b"bstring")
        || is_same(word, b"symbol")
        || is_same(word, b"procedure")
}

/// The name of a symbol in a binding place, with the word of its type if one is written; none where what stands before
/// the first `::` is no symbol, or what stands behind it no type.
pub fn typed_name(name: &[u8]) -> Option<TypedName<'_>>
    ensures { option_map typed_view result ≡ typed name.now }
{
    let Some(parts) = split_type(name) else {
        return Some(TypedName { name, ty: None });
    };
    if !begins_as_symbol(parts.before) || !is_type_word(parts.behind) {
        return None;
    }
    Some(TypedName {
        name: parts.before,
        ty: Some(parts.behind),
    })
}
