// The functions and forms of a module, from its top-level forms.
ghost use Rattle.std.specs.Prelude.{◌≡◌, ◌+◌, ◌-◌, ◌≤◌, IfOk, map, length};
ghost use Rattle.std.specs.Option.{option_map};
ghost use Rattle.scheme_data.specs.Data.{plain};
ghost use Rattle.core_tree.specs.Tree.{tree, function_tree};
ghost use Rattle.resolver.specs.BuiltHeads.{says};
ghost use Rattle.resolver.specs.Trees.{head_tree};
ghost use Rattle.resolver.specs.Drafts.{expression, top_scope, draft_in};
ghost use Rattle.resolver.specs.Parts.{definition_of, top_of, param_count, function_at, Builds, draft_from, numbered_from};

use crate::built_head::BuiltHead;
use crate::definitions::Definition;
use crate::scope::{Scope, number_after};
use crate::shapes::name_is;
use crate::tops::TopForm;
use core_tree::{Lambda, Node, Top, VarId};
use name_table::NameTable;
use scheme_data::{Datum, List, OutOfMemory};
use std::alloc::Global;

/// What the top-level forms of a module see: its head, the names of its functions in source order, and those of other modules' functions that they call, in order of first use.
#[derive(Clone, Copy)]
pub struct Functions<'a> {
    pub alloc: Global,
    pub head: &'a BuiltHead,
    pub names: &'a NameTable,
    pub outside: &'a NameTable,
}

/// The variables with the numbers from `first` to below `end`.
fn variables(alloc: Global, first: u32, end: u32) -> Result<List<VarId>, OutOfMemory>
    requires { first ≤ end }
    ensures { IfOk result (λ xs. xs ≡ numbered_from first (end - first)) }
{
    let mut params = List::new(alloc);
    for n in first..end {
        params.push(VarId(n))?;
    }
    Ok(params)
}

impl<'a> Functions<'a> {
    /// Whether it is the main function's name.
    fn is_main(&self, name: &[u8]) -> bool
        ensures { result ≡ says self.now.head.now.main name.now }
    {
        match &self.head.main {
            None => false,
            Some(main) => name_is(main.as_bytes(), name),
        }
    }

    /// The procedure of a definition, whose parameters have the numbers from `first` to below `end`.
    fn lambda(
        &self,
        first: u32,
        end: u32,
        d: &Definition<'_>,
    ) -> Result<Option<Lambda>, OutOfMemory>
        requires { end ≡ first + length d.now.params }
        ensures { IfOk result (λ l. option_map (function_tree d.now.name.now) l ≡ function_at self.now.names.now self.now.outside.now self.now.head.now.main first (definition_of d.now)) }
    {
        let scope = Scope {
            alloc: self.alloc,
            functions: self.names,
            outside: self.outside,
            params: &d.params,
            first,
            in_main: self.is_main(d.name.as_bytes()),
        };
        let Some(body) = scope.body(d.body)? else {
            return Ok(None);
        };
        let params = variables(self.alloc, first, end)?;
        Ok(Some(Lambda { params, body }))
    }

    /// The tree of an expression that stands at top level, where it sees no parameters; none where it isn't one.
    fn form(&self, d: &Datum) -> Result<Option<Node>, OutOfMemory>
        ensures { IfOk result (λ n. option_map tree n ≡ expression (top_scope self.now.names.now self.now.outside.now) (plain d.now)) }
    {
        let params = NameTable::new(self.alloc);
        let scope = Scope {
            alloc: self.alloc,
            functions: self.names,
            outside: self.outside,
            params: &params,
            first: 0,
            in_main: false,
        };
        scope.expression(d)
    }

    /// The function or the form of a top-level form, whose parameters have the numbers from `first` to below `end`.
    fn top(&self, first: u32, end: u32, top: &TopForm<'_>) -> Result<Option<Top>, OutOfMemory>
        requires { end ≡ first + param_count (top_of top.now) }
        ensures { IfOk result (Builds self.now.names.now self.now.outside.now self.now.head.now.main first (top_of top.now)) }
    {
        match top {
            TopForm::Define(d) => {
                let Some(lambda) = self.lambda(first, end, d)? else {
                    return Ok(None);
                };
                let name = d.name.copy(self.alloc)?;
                Ok(Some(Top::Function(name, lambda)))
            }
            TopForm::Evaluate(d) => {
                let Some(node) = self.form(d)? else {
                    return Ok(None);
                };
                Ok(Some(Top::Form(node)))
            }
        }
    }

    /// The functions and forms of top-level forms, in source order, the functions' parameters numbered through; none where a body isn't one expression or more, or a form isn't one.
    pub fn all(&self, tops: &[TopForm<'_>]) -> Result<Option<List<Top>>, OutOfMemory>
        ensures { IfOk result (λ ts. option_map (draft_from self.now.head.now self.now.outside.now) ts ≡ draft_in (head_tree self.now.head.now) self.now.names.now self.now.outside.now (map top_of tops.now)) }
    {
        let mut built = List::new(self.alloc);
        let mut first = 0;
        for top in tops {
            let end = number_after(first, top.param_count())?;
            let Some(item) = self.top(first, end, top)? else {
                return Ok(None);
            };
            built.push(item)?;
            first = end;
        }
        Ok(Some(built))
    }
}
