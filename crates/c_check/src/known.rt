ghost use Rattle.std.specs.Prelude.{◌≡◌, [], None, not, map, IfOk};
ghost use Rattle.c_tree.specs.Code.{declared};
ghost use Rattle.c_tree.specs.Functions.{fun_of};
ghost use Rattle.c_tree.specs.Pieces.{piece_of};
ghost use Rattle.c_meaning.specs.Plain.{variables_of, signature_named, variable_named};
ghost use Rattle.c_meaning.specs.Breaches.{has, type_of};
ghost use Rattle.c_meaning.specs.Checked.{global_agrees, global_breaches, item_breaches, params_before};
ghost use Rattle.c_check.specs.Firsts.{first};
ghost use Rattle.c_check.specs.Heads.{gives_before, takes_before};
ghost use Rattle.c_check.specs.Blocks.{IsOpen};
ghost use Rattle.c_check.specs.Scopes.{state_of};
ghost use Rattle.c_check.specs.Walks.{start, walk_breaches};
ghost use Rattle.c_check.specs.Knowns.{known_of, body_in, head_breaches, body_breaches, gives_of, MakesVariables};

use crate::blocks::Blocks;
use crate::causes::unless;
use crate::code::{are_complete, labels_ahead, pieces_fault};
use crate::declared::{Declared, Shape};
use crate::heads::{Before, Head, locals_fault};
use crate::role::Role;
use crate::room::Room;
use crate::scope::Scope;
use crate::types::same_type;
use crate::variables::Variables;
use c_meaning::BadCause;
use c_tree::{CFun, CTy, CVar, PieceRef, pieces_in};
use name_table::NameTable;
use scheme_data::{OutOfMemory, Stack, Text};
use std::alloc::Global;

/// What is declared in front of an item, and the names that are defined there.
#[derive(Drop)]
pub struct Known {
    pub alloc: Global,
    pub functions: Declared,
    pub globals: Variables,
    pub names: NameTable,
}

/// The variables of a function, or the first thing that is wrong in its head or its locals.
#[derive(Drop)]
pub enum Made {
    Good(Variables),
    Bad(BadCause),
}

impl Known {
    /// Nothing.
    pub fn new(alloc: Global) -> Known
        ensures { known_of result ≡ record { functions = []; globals = []; names = [] } }
    {
        Known {
            alloc,
            functions: Declared::new(alloc),
            globals: Variables::new(alloc),
            names: NameTable::new(alloc),
        }
    }

    pub fn global_fault(&self, v: &CVar) -> Option<BadCause>
        ensures { result ≡ first (global_breaches (known_of self.now) v.now) }
    {
        unless(BadCause::Clash, self.global_agrees(v))
    }

    fn global_agrees(&self, v: &CVar) -> bool
        ensures { result ≡ global_agrees (type_of (variable_named (known_of self.now).globals v.now.name)) v.now.ty }
    {
        match self.globals.type_of(v.name.as_bytes()) {
            None => true,
            Some(t) => same_type(t, v.ty),
        }
    }

    pub fn is_new(&self, name: &[u8]) -> bool
        ensures { result ≡ not (has (known_of self.now).names name.now) }
    {
        !self.names.contains(name)
    }

    fn before(&self, name: &[u8]) -> Before<'_>
        ensures gives { gives_before result ≡ gives_of (signature_named (known_of self.now).functions name.now) }
        ensures takes { takes_before result ≡ params_before (signature_named (known_of self.now).functions name.now) }
    {
        match self.functions.shape(name) {
            None => Before::Nothing,
            Some(shape) => Before::Types(shape),
        }
    }

    pub fn declaration_fault(&self, gives: CTy, name: &[u8], params: &[CTy]) -> Option<BadCause>
        ensures { result ≡ first (item_breaches (known_of self.now) (declared gives name.now params.now)) }
    {
        let head = Head {
            role: Role::of(name),
            before: self.before(name),
        };
        head.result_fault(gives).or(head.types_fault(params))
    }

    // The first thing that is wrong in the head and the locals of a function, which become its variables.
    fn head_fault(
        &self,
        f: &CFun,
        variables: &mut Variables,
    ) -> Result<Option<BadCause>, OutOfMemory>
        requires { variables.old ≡ [] }
        ensures fault { IfOk result (λ fault. fault ≡ first (head_breaches (known_of self.now) (fun_of f.now))) }
        ensures made { IfOk result (λ fault. fault ≡ None → variables.new ≡ variables_of (fun_of f.now)) }
    {
        let name = f.name.as_bytes();
        let head = Head {
            role: Role::of(name),
            before: self.before(name),
        };
        let fault = head
            .result_fault(f.result)
            .or(unless(BadCause::Twice, self.is_new(name)));
        if let Some(cause) = fault {
            return Ok(Some(cause));
        }
        if let Some(cause) = head.params_fault(variables, f.params.as_slice())? {
            return Ok(Some(cause));
        }
        let fault = locals_fault(variables, f.locals.as_slice())?;
        Ok(fault)
    }

    // The variables of a function, if nothing is wrong in its head and its locals.
    pub fn variables_of(&self, f: &CFun) -> Result<Made, OutOfMemory>
        ensures { IfOk result (MakesVariables (head_breaches (known_of self.now) (fun_of f.now)) (variables_of (fun_of f.now))) }
    {
        let mut variables = Variables::new(self.alloc);
        match self.head_fault(f, &mut variables)? {
            Some(cause) => Ok(Made::Bad(cause)),
            None => Ok(Made::Good(variables)),
        }
    }

    fn scope<'a>(&'a self, f: &CFun, variables: Variables, ahead: Stack<Text>) -> Scope<'a>
        requires { variables ≡ variables_of (fun_of f.now) }
        ensures depths { IsOpen result.blocks }
        ensures start { state_of result ≡ record { scope = body_in (known_of self.now) (fun_of f.now); frames = []; ahead = ahead } }
    {
        let role = Role::of(f.name.as_bytes());
        Scope {
            alloc: self.alloc,
            role,
            gives: f.result,
            functions: &self.functions,
            globals: &self.globals,
            variables,
            labels: NameTable::new(self.alloc),
            called: NameTable::new(self.alloc),
            blocks: Blocks::new(self.alloc),
            room: Room::of(role),
            ahead,
        }
    }

    fn statements_fault(
        &self,
        f: &CFun,
        variables: Variables,
        pieces: &[PieceRef<'_>],
    ) -> Result<Option<BadCause>, OutOfMemory>
        requires { variables ≡ variables_of (fun_of f.now) }
        ensures { IfOk result (λ fault. fault ≡ first (walk_breaches (start (body_in (known_of self.now) (fun_of f.now)) (map piece_of pieces.now)) (map piece_of pieces.now))) }
    {
        let ahead = labels_ahead(self.alloc, pieces)?;
        let mut scope = self.scope(f, variables, ahead);
        pieces_fault(&mut scope, pieces)
    }

    // What is wrong in the body of a function whose head is declared.
    pub fn body_fault(
        &self,
        f: &CFun,
        variables: Variables,
    ) -> Result<Option<BadCause>, OutOfMemory>
        requires { variables ≡ variables_of (fun_of f.now) }
        ensures { IfOk result (λ fault. fault ≡ first (body_breaches (known_of self.now) (fun_of f.now))) }
    {
        let pieces = pieces_in(self.alloc, f)?;
        let pieces = pieces.as_slice();
        let fault = self.statements_fault(f, variables, pieces)?;
        if fault.is_some() {
            return Ok(fault);
        }
        Ok(unless(
            BadCause::Shape,
            are_complete(Role::of(f.name.as_bytes()), pieces),
        ))
    }
}
