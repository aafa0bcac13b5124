ghost use Rattle.std.specs.Prelude.{◌≡◌, [], ◌++◌, Some, None, IfOk};
ghost use Rattle.c_meaning.specs.Checked.{param_agrees, are_all, param_breaches, types_breaches, params_breaches, locals_breaches};
ghost use Rattle.c_check.specs.Firsts.{first};
ghost use Rattle.c_check.specs.Roles.{role_as};
ghost use Rattle.c_check.specs.Variables.{names_of};
ghost use Rattle.c_check.specs.Heads.{gives_before, takes_before, dropped, result_before, result_wrong};

use crate::causes::unless;
use crate::declared::Shape;
use crate::role::Role;
use crate::types::same_type;
use crate::variables::Variables;
use c_meaning::BadCause;
use c_tree::{CTy, CVar};
use scheme_data::OutOfMemory;

/// What an earlier declaration of a function said.
#[derive(Drop)]
pub enum Before<'a> {
    Nothing,
    Types(&'a Shape),
}

impl<'a> Before<'a> {
    fn result_agrees(&self, t: CTy) -> bool
        ensures { result ≡ result_before (gives_before self.now) t }
    {
        match self {
            Before::Nothing => true,
            Before::Types(shape) => same_type(shape.gives, t),
        }
    }

    fn param_agrees(&self, place: usize, t: CTy) -> bool
        ensures { result ≡ param_agrees (dropped place (takes_before self.now)) t }
    {
        match self {
            Before::Nothing => true,
            Before::Types(shape) => type_agrees(shape.params.as_slice(), place, t),
        }
    }

    fn are_all(&self, count: usize) -> bool
        ensures { result ≡ are_all (dropped count (takes_before self.now)) }
    {
        match self {
            Before::Nothing => true,
            Before::Types(shape) => shape.params.as_slice().len() <= count,
        }
    }
}

fn type_agrees(types: &[CTy], place: usize, t: CTy) -> bool
    ensures { result ≡ param_agrees (dropped place (Some types.now)) t }
{
    match types.get(place) {
        None => false,
        Some(u) => same_type(*u, t),
    }
}

/// The head of a function: its role, and what was said of it before.
#[derive(Drop)]
pub struct Head<'a> {
    pub role: Role,
    pub before: Before<'a>,
}

impl<'a> Head<'a> {
    /// What is wrong with the type of the result.
    pub fn result_fault(&self, t: CTy) -> Option<BadCause>
        ensures { result ≡ first (result_wrong (role_as self.now.role) (gives_before self.now.before) t) }
    {
        unless(BadCause::Clash, self.before.result_agrees(t)).or(unless(
            BadCause::Shape,
            self.role.may_give(t),
        ))
    }

    fn param_fault(&self, place: usize, t: CTy) -> Option<BadCause>
        ensures { result ≡ first (param_breaches (role_as self.now.role) (dropped place (takes_before self.now.before)) t) }
    {
        unless(BadCause::Clash, self.before.param_agrees(place, t)).or(unless(
            BadCause::Shape,
            self.role.may_take(t),
        ))
    }

    /// What is wrong with the types of a declaration.
    pub fn types_fault(&self, types: &[CTy]) -> Option<BadCause>
        ensures { result ≡ first (types_breaches (role_as self.now.role) (takes_before self.now.before) types.now) }
    {
        for place in 0..types.len() {
            let fault = self.param_fault(place, types[place]);
            if fault.is_some() {
                return fault;
            }
        }
        unless(BadCause::Clash, self.before.are_all(types.len()))
    }

    /// Adds the parameters of a definition to no variables, up to the first that is wrong.
    pub fn params_fault(
        &self,
        variables: &mut Variables,
        params: &[CVar],
    ) -> Result<Option<BadCause>, OutOfMemory>
        requires { variables.old ≡ [] }
        ensures fault { IfOk result (λ fault. fault ≡ first (params_breaches (role_as self.now.role) (takes_before self.now.before) [] params.now)) }
        ensures ok { IfOk result (λ fault. fault ≡ None → variables.new ≡ params.now) }
    {
        for place in 0..params.len() {
            let var = &params[place];
            let fault = self.param_fault(place, var.ty);
            if fault.is_some() {
                return Ok(fault);
            }
            if !variables.add(var)? {
                return Ok(Some(BadCause::Twice));
            }
        }
        Ok(unless(BadCause::Clash, self.before.are_all(params.len())))
    }
}

/// Adds locals behind the parameters, up to the first whose name isn't new.
pub fn locals_fault(
    variables: &mut Variables,
    locals: &[CVar],
) -> Result<Option<BadCause>, OutOfMemory>
    ensures fault { IfOk result (λ fault. fault ≡ first (locals_breaches (names_of variables.old) locals.now)) }
    ensures ok { IfOk result (λ fault. fault ≡ None → variables.new ≡ variables.old ++ locals.now) }
{
    for local in locals {
        if !variables.add(local)? {
            return Ok(Some(BadCause::Twice));
        }
    }
    Ok(None)
}
