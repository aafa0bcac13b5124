ghost use Rattle.std.specs.Prelude.{◌≡◌, ℕ, List};
ghost use Rattle.std.specs.List.{list_any};
ghost use Rattle.c_tree.specs.declared.op.Op.{Op};
ghost use Rattle.c_meaning.specs.Plain.{role_of};
ghost use Rattle.c_meaning.specs.Breaches.{is_function, may_call, may_do, may_loop};
ghost use Rattle.c_meaning.specs.Checked.{result_fits, param_fits};
ghost use Rattle.c_check.specs.Roles.{role_as};

use crate::types::same_type;
use c_tree::{CTy, Op, begins_as_entry, begins_as_initializer, begins_as_maker, names_main};
use name_table::NameTable;

/// What a function is, by its name.
#[derive(Clone, Copy)]
pub enum Role {
    Main,
    Maker,
    Initializer,
    Entry,
    Function,
}

impl Role {
    /// The role of the function of a name.
    pub fn of(name: &[u8]) -> Role
        ensures { role_as result ≡ role_of name.now }
    {
        if names_main(name) {
            return Role::Main;
        }
        if begins_as_maker(name) {
            return Role::Maker;
        }
        if begins_as_initializer(name) {
            return Role::Initializer;
        }
        if begins_as_entry(name) {
            return Role::Entry;
        }
        Role::Function
    }

    /// Whether a function of this role, which called these, may call the one of a name.
    pub fn may_call(self, called: &NameTable, name: &[u8]) -> bool
        ensures { result ≡ may_call (role_as self) called.now name.now (role_of name.now) }
    {
        match Role::of(name) {
            Role::Main => false,
            Role::Entry => false,
            Role::Maker => self.may_call_once(called, name),
            Role::Initializer => self.may_call_once(called, name),
            Role::Function => self.may_call_function(called),
        }
    }

    fn may_call_once(self, called: &NameTable, name: &[u8]) -> bool
        ensures maker { result ≡ may_call (role_as self) called.now name.now (role_as Role.Maker) }
        ensures initializer { result ≡ may_call (role_as self) called.now name.now (role_as Role.Initializer) }
    {
        match self {
            Role::Main => !called.contains(name),
            Role::Maker => false,
            Role::Initializer => false,
            Role::Entry => false,
            Role::Function => false,
        }
    }

    fn may_call_function(self, called: &NameTable) -> bool
        ensures { (name : List ℕ) → result ≡ may_call (role_as self) called.now name (role_as Role.Function) }
    {
        match self {
            Role::Main => true,
            Role::Maker => false,
            Role::Initializer => true,
            Role::Entry => !has_function(called),
            Role::Function => true,
        }
    }

    /// Whether it may do an operation.
    pub fn may_do(self, op: Op) -> bool
        ensures { result ≡ may_do (role_as self) op }
    {
        !op.takes_more() || !matches!(self, Role::Maker | Role::Entry)
    }

    /// Whether it may have a loop.
    pub fn may_loop(self) -> bool
        ensures { result ≡ may_loop (role_as self) }
    {
        !matches!(self, Role::Entry)
    }

    /// Whether it may give a type.
    pub fn may_give(self, t: CTy) -> bool
        ensures { result ≡ result_fits (role_as self) t }
    {
        match self {
            Role::Main => same_type(CTy::Int, t),
            Role::Maker => same_type(CTy::Obj, t),
            Role::Initializer => same_type(CTy::Obj, t),
            Role::Entry => same_type(CTy::Obj, t),
            Role::Function => true,
        }
    }

    /// Whether it may take a parameter of a type.
    pub fn may_take(self, t: CTy) -> bool
        ensures { result ≡ param_fits (role_as self) t }
    {
        match self {
            Role::Main => false,
            Role::Maker => false,
            Role::Initializer => false,
            Role::Entry => same_type(CTy::Obj, t),
            Role::Function => true,
        }
    }
}

/// Whether a name is that of a function of a module.
pub fn is_function(name: &[u8]) -> bool
    ensures { result ≡ is_function name.now }
{
    matches!(Role::of(name), Role::Function)
}

fn has_function(names: &NameTable) -> bool
    ensures { result ≡ list_any is_function names.now }
{
    for place in 0..names.len() {
        if is_function(names.name(place)) {
            return true;
        }
    }
    false
}
