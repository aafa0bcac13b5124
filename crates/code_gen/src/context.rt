// What the statements of a function may name.
ghost use Rattle.std.specs.Prelude.{◌≡◌, IfOk, IsTrue, Some, length};
ghost use Rattle.std.specs.List.{list_any};
ghost use Rattle.core_tree.specs.WellFormed.{same_variable};
ghost use Rattle.c_tree.specs.Names.{local_name};
ghost use Rattle.plan_rules.specs.declared.rep.Rep.TheVariants.{Obj};
ghost use Rattle.plan_rules.specs.Representation.{PlainAt, slot_of};
ghost use Rattle.code_gen.specs.Scopes.{words, scope_with};

use crate::callees::Functions;
use c_tree::{CTy, CVar, local_name_text};
use core_tree::VarId;
use scheme_data::{List, OutOfMemory};
use std::alloc::Global;
use std::collections::BTreeMap;
use std::marker::Model;

/// The parameters of a function. Each is a word, in the local with the number of its place.
#[derive(Drop)]
pub struct Params<'a> {
    params: &'a [VarId],
    count: u32,
    locals: BTreeMap<u32, u32>,
}

impl<'a> Model for Params<'a> {
    ghost use Rattle.std.specs.Prelude.{◌≡◌, List, length};
    ghost use Rattle.std.specs.Coded.{coded_list};
    ghost use Rattle.core_tree.specs.declared.tree.VarId.{VarId};
    ghost use Rattle.core_tree.specs.contracts.tree.VarId as the_variable;
    ghost use Rattle.code_gen.specs.Scopes.{HasLocals};

    ghost Value = { List VarId };

    ghost coded = { coded_list the_variable.the_row.coded };

    ghost view = { λ p. p.params.now };

    ghost invariant = { λ p. (p.count ≡ length p.params.now) × HasLocals p.locals 0 p.params.now };
}

impl<'a> Params<'a> {
    /// The parameters in order. Of those with one number the first is found.
    pub fn new(alloc: Global, params: &'a [VarId]) -> Result<Params<'a>, OutOfMemory>
        ensures { IfOk result (λ p. p ≡ params.now) }
    {
        let count = u32::try_from(params.len()).map_err(|_| OutOfMemory)?;
        let mut locals = BTreeMap::new(alloc);
        let mut i = count;
        while i > 0 {
            i -= 1;
            locals.insert(params[i as usize].0, i)?;
        }
        Ok(Params {
            params,
            count,
            locals,
        })
    }

    /// How many there are.
    pub fn count(&self) -> u32
        ensures { result ≡ length self.now }
    {
        self.count
    }

    /// The number of the local that has a parameter.
    pub fn local_of(&self, x: VarId) -> u32
        requires { IsTrue (list_any (same_variable x) self.now) }
        ensures { slot_of x (scope_with self.now) ≡ Some (PlainAt Obj (local_name result)) }
    {
        match self.locals.get(&x.0) {
            Some(local) => *local,
            None => unreachable!(),
        }
    }

    /// The locals that have them.
    pub fn variables(&self, alloc: Global) -> Result<List<CVar>, OutOfMemory>
        ensures { IfOk result (λ vars. vars ≡ words 0 self.now) }
    {
        let mut vars = List::new(alloc);
        for i in 0..self.count {
            vars.push(CVar {
                ty: CTy::Obj,
                name: local_name_text(alloc, i)?,
            })?;
        }
        Ok(vars)
    }
}

/// Where statements stand: in a function of a module, with these parameters.
#[derive(Drop)]
pub struct Context<'a> {
    pub functions: &'a Functions<'a>,
    pub params: Params<'a>,
}
