ghost use Rattle.std.specs.Prelude.{◌≡◌, is_some, option_copied, map};
ghost use Rattle.std.specs.Option.{option_map};
ghost use Rattle.c_tree.specs.Operations.{wants_of};
ghost use Rattle.c_meaning.specs.Plain.{signature_named, variable_named, role_of};
ghost use Rattle.c_meaning.specs.Breaches.{variable_type, atom_breaches, misplaced, argument_breaches, arguments_breaches, is_declared, may_call, callee_breaches, operands_breaches, first_breaches, later_breaches, expr_breaches, local_breaches, standing};
ghost use Rattle.c_check.specs.Firsts.{first};
ghost use Rattle.c_check.specs.Signatures.{signed};
ghost use Rattle.c_check.specs.Asked.{wants_in, asks_more, wants_by, takes_more_by};
ghost use Rattle.c_check.specs.Scopes.{scope_of};

use crate::asked::Asked;
use crate::blocks::Blocks;
use crate::causes::{name_fault, unless};
use crate::declared::{Declared, Shape};
use crate::role::Role;
use crate::room::Room;
use crate::types::{is_asked, is_written, number_asked};
use crate::variables::Variables;
use c_meaning::BadCause;
use c_tree::{CArg, CAtom, CCall, CExpr, CTy, Callee, Wants};
use name_table::NameTable;
use scheme_data::{Stack, Text};
use std::alloc::Global;

/// What may be named and done where a statement of a function stands.
#[derive(Drop)]
pub struct Scope<'a> {
    pub alloc: Global,
    pub role: Role,
    pub gives: CTy,
    /// Of the functions and globals that are declared so far.
    pub functions: &'a Declared,
    pub globals: &'a Variables,
    pub variables: Variables,
    /// So far in the function.
    pub labels: NameTable,
    pub called: NameTable,
    pub blocks: Blocks,
    pub room: Room,
    /// The labels behind the blocks that begin further on, in text order.
    pub ahead: Stack<Text>,
}

impl<'a> Scope<'a> {
    /// The type of a local or of a global that is declared.
    pub fn variable_type(&self, x: &[u8]) -> Option<CTy>
        ensures { result ≡ variable_type (scope_of self.now) x.now }
    {
        self.variables.type_of(x).or(self.globals.type_of(x))
    }

    fn is_declared(&self, name: &[u8]) -> bool
        ensures { result ≡ is_declared (scope_of self.now) name.now }
    {
        self.functions.shape(name).is_some()
    }

    fn atom_fault(&self, asked: Option<CTy>, atom: &CAtom) -> Option<BadCause>
        ensures { result ≡ first (atom_breaches (scope_of self.now) asked atom.now) }
    {
        match atom {
            CAtom::Int(n) => unless(BadCause::Types, number_asked(asked, *n)),
            CAtom::Name(x) => name_fault(asked, self.variable_type(x.as_bytes())),
            CAtom::Sym(_) => unless(BadCause::Types, is_asked(asked, CTy::Obj)),
            CAtom::False => unless(BadCause::Types, is_asked(asked, CTy::Obj)),
            CAtom::True => unless(BadCause::Types, is_asked(asked, CTy::Obj)),
            CAtom::Nil => unless(BadCause::Types, is_asked(asked, CTy::Obj)),
            CAtom::Unspec => unless(BadCause::Types, is_asked(asked, CTy::Obj)),
            CAtom::Eof => unless(BadCause::Types, is_asked(asked, CTy::Obj)),
        }
    }

    // What is wrong with an argument where none of its kind is asked for.
    fn misplaced(&self, arg: &CArg) -> Option<BadCause>
        ensures { result ≡ first (misplaced (scope_of self.now) arg.now) }
    {
        match arg {
            CArg::Atom(CAtom::Name(x)) => {
                unless(
                    BadCause::Undeclared,
                    self.variable_type(x.as_bytes()).is_some(),
                )
                .or(Some(BadCause::Types))
            }
            _ => Some(BadCause::Types),
        }
    }

    fn wanted_fault(&self, wants: Wants, arg: &CArg) -> Option<BadCause>
        ensures { result ≡ first (argument_breaches (scope_of self.now) (Some wants) arg.now) }
    {
        match (wants, arg) {
            (Wants::AType(t), CArg::Atom(atom)) => self.atom_fault(Some(t), atom),
            (Wants::AText, CArg::Str(_)) => None,
            (Wants::AnEntry, CArg::Entry(name)) => {
                unless(BadCause::Undeclared, self.is_declared(name.as_bytes()))
            }
            (_, CArg::Atom(CAtom::Int(n))) => unless(BadCause::Types, is_written(wants, *n)),
            _ => self.misplaced(arg),
        }
    }

    fn argument_fault(&self, asked: Option<Wants>, arg: &CArg) -> Option<BadCause>
        ensures { result ≡ first (argument_breaches (scope_of self.now) asked arg.now) }
    {
        match asked {
            None => self.misplaced(arg),
            Some(wants) => self.wanted_fault(wants, arg),
        }
    }

    fn arguments_fault(&self, asked: &Asked<'_>, args: &[CArg]) -> Option<BadCause>
        ensures { result ≡ first (arguments_breaches (scope_of self.now) (wants_in asked.now) (asks_more asked.now) args.now) }
    {
        for i in 0..args.len() {
            let fault = self.argument_fault(asked.at(i), &args[i]);
            if fault.is_some() {
                return fault;
            }
        }
        unless(BadCause::Types, asked.count() <= args.len())
    }

    /// What is wrong with a call at the name of what is called.
    pub fn callee_fault(&self, asked: Option<CTy>, callee: &Callee) -> Option<BadCause>
        ensures { result ≡ first (callee_breaches (scope_of self.now) asked callee.now) }
    {
        match callee {
            Callee::Fun(name) => self.function_fault(asked, name.as_bytes()),
            Callee::Op(op) => unless(BadCause::Types, is_asked(asked, op.gives())).or(unless(
                BadCause::Shape,
                self.role.may_do(*op),
            )),
        }
    }

    fn function_fault(&self, asked: Option<CTy>, name: &[u8]) -> Option<BadCause>
        ensures { result ≡ first (callee_breaches (scope_of self.now) asked (Callee.Fun name.now)) }
    {
        match self.functions.shape(name) {
            None => Some(BadCause::Undeclared),
            Some(shape) => unless(BadCause::Types, is_asked(asked, shape.gives)).or(unless(
                BadCause::Shape,
                self.role.may_call(&self.called, name),
            )),
        }
    }

    fn asked_by(&self, callee: &Callee) -> Asked<'_>
        ensures wants { wants_in result ≡ wants_by (scope_of self.now) callee.now }
        ensures more { asks_more result ≡ takes_more_by callee.now }
    {
        match callee {
            Callee::Fun(name) => match self.functions.shape(name.as_bytes()) {
                None => Asked::Nothing,
                Some(shape) => Asked::Types(shape.params.as_slice()),
            },
            Callee::Op(op) => Asked::Of(*op),
        }
    }

    /// What is wrong with a call behind its name.
    pub fn operands_fault(&self, call: &CCall) -> Option<BadCause>
        ensures { result ≡ first (operands_breaches (scope_of self.now) call.now call.now.callee) }
    {
        self.arguments_fault(&self.asked_by(&call.callee), call.args.as_slice())
    }

    /// What is wrong with an expression, where a type is asked for.
    pub fn expression_fault(&self, asked: Option<CTy>, e: &CExpr) -> Option<BadCause>
        ensures { result ≡ first (expr_breaches (scope_of self.now) asked e.now) }
    {
        match e {
            CExpr::Atom(atom) => self.atom_fault(asked, atom),
            CExpr::Call(call) => self
                .callee_fault(asked, &call.callee)
                .or(self.operands_fault(call)),
        }
    }

    /// What is wrong with a local in which an object is kept.
    pub fn local_fault(&self, x: &[u8]) -> Option<BadCause>
        ensures { result ≡ first (local_breaches (scope_of self.now) x.now) }
    {
        name_fault(Some(CTy::Obj), self.variables.type_of(x))
    }

    /// What is wrong with a statement that is no loop at its first token.
    pub fn standing_fault(&self) -> Option<BadCause>
        ensures { result ≡ first (standing (scope_of self.now)) }
    {
        unless(BadCause::Shape, self.room.may_hold(false))
    }
}
