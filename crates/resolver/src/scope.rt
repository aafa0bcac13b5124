// The expressions of a module.
ghost use Rattle.std.specs.Prelude.{◌≡◌, ◌+◌, IfOk, Some};
ghost use Rattle.std.specs.Option.{option_map};
ghost use Rattle.scheme_data.specs.Data.{plain, plain_all};
ghost use Rattle.built_table.specs.Table.{prim_named};
ghost use Rattle.name_table.specs.Names.{place_of};
ghost use Rattle.resolver.specs.BuiltHeads.{symbol_of};
ghost use Rattle.core_tree.specs.Tree.{tree};
ghost use Rattle.resolver.specs.Drafts.{taking, variable, global_operator, operator, branched, applied, expression, expressions, non_empty, body};
ghost use Rattle.resolver.specs.Parts.{node_trees, scope_of, operator_of};

use crate::names::names_special_form;
use crate::shapes::{name_is, symbol};
use built_table::{Primitive, prim_by_name};
use core_tree::{Const, GlobalRef, Node, VarId};
use name_table::NameTable;
use scheme_data::{Datum, OutOfMemory};
use sqlite_items::{Boxed, Items};
use std::alloc::Global;

/// What expressions see: the functions of the module, those of other modules that it calls, the parameters of the function in which they stand, the number of the first of these, and whether it is the main function.
#[derive(Clone, Copy)]
pub struct Scope<'a> {
    pub alloc: Global,
    pub functions: &'a NameTable,
    pub outside: &'a NameTable,
    pub params: &'a NameTable,
    pub first: u32,
    pub in_main: bool,
}

/// What stands first in a form: the word `if`, a function of this or another module, or a primitive.
#[derive(Clone, Copy, Debug)]
pub enum Operator {
    Branch,
    Function(GlobalRef),
    Builtin(Primitive),
}

/// The number that is so many after another; want of memory where that is no number of 32 bits.
pub fn number_after(first: u32, more: usize) -> Result<u32, OutOfMemory>
    ensures { IfOk result (λ n. n ≡ first + more) }
{
    let more = u32::try_from(more).ok().ok_or(OutOfMemory)?;
    first.checked_add(more).ok_or(OutOfMemory)
}

/// The primitive of a name, where it takes so many arguments.
fn primitive(name: &[u8], args: usize) -> Option<Primitive>
    ensures { result ≡ taking args (prim_named name.now) }
{
    let p = prim_by_name(name)?;
    if args == p.arity() { Some(p) } else { None }
}

/// The `if` of these parts; none where they aren't three.
fn branch(alloc: Global, mut parts: Items<Node>) -> Result<Option<Node>, OutOfMemory>
    ensures { IfOk result (λ n. option_map tree n ≡ branched (node_trees parts)) }
{
    if parts.len() != 3 {
        return Ok(None);
    }
    let test = Boxed::new(alloc, parts.remove(0))?;
    let first = Boxed::new(alloc, parts.remove(0))?;
    let second = Boxed::new(alloc, parts.remove(0))?;
    Ok(Some(Node::If(test, first, second)))
}

/// The tree of a form with this operator and these parts; none for an `if` of other than three.
fn form_of(
    alloc: Global,
    operator: Operator,
    parts: Items<Node>,
) -> Result<Option<Node>, OutOfMemory>
    ensures { IfOk result (λ n. option_map tree n ≡ applied (Some (operator_of operator)) (Some (node_trees parts))) }
{
    match operator {
        Operator::Branch => branch(alloc, parts),
        Operator::Function(callee) => Ok(Some(Node::Call(callee, parts))),
        Operator::Builtin(p) => Ok(Some(Node::Primitive(p, parts))),
    }
}

/// The body of these expressions; none where there are none.
fn sequence(nodes: Items<Node>) -> Option<Node>
    ensures { option_map tree result ≡ non_empty (Some (node_trees nodes)) }
{
    if nodes.is_empty() {
        return None;
    }
    Some(Node::Sequence(nodes))
}

impl<'a> Scope<'a> {
    /// A parameter's value; none where it may not be used.
    fn variable(&self, name: &[u8]) -> Result<Option<Node>, OutOfMemory>
        ensures { IfOk result (λ n. option_map tree n ≡ variable (scope_of self.now) (Some name.now)) }
    {
        let Some(place) = self.params.position(name) else {
            return Ok(None);
        };
        if self.in_main {
            return Ok(None);
        }
        let number = number_after(self.first, place)?;
        Ok(Some(Node::Variable(VarId(number))))
    }

    /// What a name calls that is neither a parameter nor a special form: first the functions of the module, then those of other modules, then the primitives.
    fn global(&self, name: &[u8], args: usize) -> Result<Option<Operator>, OutOfMemory>
        ensures { IfOk result (λ o. option_map operator_of o ≡ global_operator (scope_of self.now) args name.now (place_of name.now self.now.functions.now)) }
    {
        if let Some(place) = self.functions.position(name) {
            let callee = GlobalRef::Own(number_after(0, place)?);
            return Ok(Some(Operator::Function(callee)));
        }
        if let Some(place) = self.outside.position(name) {
            let callee = GlobalRef::Used(number_after(0, place)?);
            return Ok(Some(Operator::Function(callee)));
        }
        Ok(primitive(name, args).map(Operator::Builtin))
    }

    /// What stands first in a form with so many parts after it; none where a parameter does, or the word of another special form than `if`.
    fn operator(&self, d: &Datum, args: usize) -> Result<Option<Operator>, OutOfMemory>
        ensures { IfOk result (λ o. option_map operator_of o ≡ operator (scope_of self.now) args (symbol_of (plain d.now))) }
    {
        let Some(name) = symbol(d) else {
            return Ok(None);
        };
        if self.params.position(name.as_bytes()).is_some() {
            return Ok(None);
        }
        if name_is(name.as_bytes(), b"if") {
            return Ok(Some(Operator::Branch));
        }
        if names_special_form(name.as_bytes()) {
            return Ok(None);
        }
        self.global(name.as_bytes(), args)
    }

    /// The tree of an expression; none where it isn't one.
    #[cycle(expressions)]
    pub fn expression(&self, d: &Datum) -> Result<Option<Node>, OutOfMemory>
        ensures { IfOk result (λ n. option_map tree n ≡ expression (scope_of self.now) (plain d.now)) }
    {
        match d {
            Datum::Int(_, n) => Ok(Some(Node::Constant(Const::Int(*n)))),
            Datum::Bool(_, b) => Ok(Some(Node::Constant(Const::Bool(*b)))),
            Datum::Sym(_, name, _) => self.variable(name.as_bytes()),
            Datum::List(_, ds) => {
                let [first, args @ ..] = ds.as_slice() else {
                    return Ok(None);
                };
                let Some(operator) = self.operator(first, args.len())? else {
                    return Ok(None);
                };
                let Some(nodes) = self.expressions(args)? else {
                    return Ok(None);
                };
                form_of(self.alloc, operator, nodes)
            }
            _ => Ok(None),
        }
    }

    #[cycle(expressions)]
    fn expressions(&self, ds: &[Datum]) -> Result<Option<Items<Node>>, OutOfMemory>
        ensures { IfOk result (λ ns. option_map node_trees ns ≡ expressions (scope_of self.now) (plain_all ds.now)) }
    {
        let mut nodes = Items::new(self.alloc);
        for d in ds {
            let Some(node) = self.expression(d)? else {
                return Ok(None);
            };
            nodes.push(node)?;
        }
        Ok(Some(nodes))
    }

    /// The tree of a body; none where it isn't one expression or more.
    pub fn body(&self, ds: &[Datum]) -> Result<Option<Node>, OutOfMemory>
        ensures { IfOk result (λ n. option_map tree n ≡ body (scope_of self.now) (plain_all ds.now)) }
    {
        let Some(nodes) = self.expressions(ds)? else {
            return Ok(None);
        };
        Ok(sequence(nodes))
    }
}
