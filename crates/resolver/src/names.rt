// Names of primitives and of special forms, and which names a module may define or bind.
ghost use Rattle.std.specs.Prelude.{◌≡◌};
ghost use Rattle.std.specs.List.{list_any};
ghost use Rattle.resolver.specs.BuiltHeads.{is_word};
ghost use Rattle.resolver.specs.Names.{is_primitive_name, core_forms, derived_forms, top_forms, is_special, is_defined_name, is_bound_name};

use crate::shapes::{name_has_type, name_is};
use built_table::prim_by_name;

/// Whether it is the name of a primitive that is built.
pub fn names_primitive(name: &[u8]) -> bool
    ensures { result ≡ is_primitive_name name.now }
{
    prim_by_name(name).is_some()
}

fn names_core_form(name: &[u8]) -> bool
    ensures { result ≡ list_any (is_word name.now) core_forms }
{
    name_is(name, b"quote")
        || name_is(name, b"lambda")
        || name_is(name, b"if")
        || name_is(name, b"set!")
        || name_is(name, b"begin")
        || name_is(name, b"let")
        || name_is(name, b"letrec")
        || name_is(name, b"bind-exit")
        || name_is(name, b"unwind-protect")
}

fn names_derived_form(name: &[u8]) -> bool
    ensures { result ≡ list_any (is_word name.now) derived_forms }
{
    name_is(name, b"let*")
        || name_is(name, b"cond")
        || name_is(name, b"case")
        || name_is(name, b"and")
        || name_is(name, b"or")
        || name_is(name, b"when")
        || name_is(name, b"unless")
        || name_is(name, b"do")
}

fn names_top_form(name: &[u8]) -> bool
    ensures { result ≡ list_any (is_word name.now) top_forms }
{
    name_is(name, b"define") || name_is(name, b"define-inline") || name_is(name, b"define-syntax")
}

/// Whether it is the word of a special form.
pub fn names_special_form(name: &[u8]) -> bool
    ensures { result ≡ is_special name.now }
{
    names_core_form(name) || names_derived_form(name) || names_top_form(name)
}

/// Whether a function may have this name.
pub fn may_be_defined(name: &[u8]) -> bool
    ensures { result ≡ is_defined_name name.now }
{
    !name_has_type(name) && !names_primitive(name) && !names_special_form(name)
}

/// Whether a parameter may have this name.
pub fn may_be_bound(name: &[u8]) -> bool
    ensures { result ≡ is_bound_name name.now }
{
    !name_has_type(name) && !names_primitive(name)
}
