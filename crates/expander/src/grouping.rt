// Neighbouring definitions of functions in a body.

ghost use Rattle.std.specs.Prelude.{◌≡◌, ◌++◌, ◌∷◌, [], ℕ, List, map, not, if◌then◌else◌, IfOk, OnOk};
ghost use Rattle.scheme_data.specs.Forms.{Forms, form, next};
ghost use Rattle.core_forms.specs.Scope.{Marked, is_bound, all_marked, entered};
ghost use Rattle.core_forms.specs.Mid.{body, none, part};
ghost use Rattle.core_forms.specs.Bodies.{Look, binders_in, group_turn, letrec_at, functions as lambda_parts};
ghost use Rattle.core_forms.specs.Table.{becomes};
ghost use Rattle.core_forms.specs.Code.{data_of, OkOrMemory};
ghost use Rattle.core_forms.specs.Working.{function_of, parts_then, work_mid};
ghost use Rattle.core_forms.specs.declared.core_form.Binder.{Binder as AnyBinder};
ghost use Rattle.core_forms.specs.declared.counting.Counts.{Counts as AnyCounts};
ghost use Rattle.expansion_steps.specs.Heads.{macros_of};
ghost use Rattle.expander.specs.declared.grouping.Group.{Group as AnyGroup};
ghost use Rattle.expander.specs.Walks.{Fits};
ghost use Rattle.expander.specs.Groups.{group_mid, functions_of, binders_of, Stays, IsFirst, neighbour_mid, NeighbourAs, GroupedAs};

use crate::expander::Expander;
use core_forms::{Binder, ExpandErr, Function, Keyword, Lists, Open, Part, Work};
use expansion_steps::{First, Looked};
use marked_names::MarkedNames;
use scheme_data::{Datum, OutOfMemory, Place, Stack};
use sqlite_items::Items;
use std::alloc::Global;

/// Functions that are defined one after another, from this place on.
#[derive(Drop)]
pub struct Group {
    pub(crate) at: Place,
    pub(crate) names: MarkedNames,
    pub(crate) functions: Items<Function>,
}

impl Group {
    pub(crate) fn new(alloc: Global, at: Place) -> Group
        ensures at { result.at ≡ at }
        ensures names { result.names ≡ [] }
        ensures functions { result.functions ≡ [] }
    {
        Group {
            at,
            names: MarkedNames::new(alloc),
            functions: Items::new(alloc),
        }
    }
}

/// Puts functions in front of parts, and gives their names, the first on top.
fn put_functions(
    alloc: Global,
    functions: Items<Function>,
    parts: &mut Stack<Part>,
) -> Result<Stack<Binder>, OutOfMemory>
    ensures names { IfOk result (λ names. names ≡ binders_in (map function_of functions)) }
    ensures parts { (xs : List AnyBinder) → OnOk result (parts_then xs parts.new none ≡ lambda_parts xs (map function_of functions) (parts_then xs parts.old none)) }
    ensures fits { Fits 3 parts.old → OnOk result (Fits 3 parts.new) }
{
    let mut functions = functions;
    let mut names = Stack::new(alloc);
    'taken: while let Some(function) = functions.pop() {
        let Function { binder, at, forms } = function;
        names.push(binder)?;
        parts.push(Part {
            lists: Lists::Three,
            work: Work::Raw(Open::Row(at, Keyword::Lambda, forms)),
        })?;
    }
    Ok(names)
}

/// Names in their order.
fn in_order(alloc: Global, names: Stack<Binder>) -> Result<Items<Binder>, OutOfMemory>
    ensures { IfOk result (λ binders. binders ≡ names) }
{
    let mut names = names;
    let mut binders = Items::new(alloc);
    'taken: while let Some(binder) = names.pop() {
        binders.push(binder)?;
    }
    Ok(binders)
}

/// The names of a group, and its functions and its body as parts.
#[derive(Drop)]
pub struct Members {
    pub(crate) binders: Items<Binder>,
    pub(crate) parts: Stack<Part>,
}

/// The functions and the body of a group as parts.
pub(crate) fn parts_of(
    alloc: Global,
    functions: Items<Function>,
    body: Work,
) -> Result<Members, OutOfMemory>
    ensures binders { IfOk result (λ m. m.binders ≡ binders_in (map function_of functions)) }
    ensures parts { (xs : List AnyBinder) → IfOk result (λ m. parts_then xs m.parts none ≡ lambda_parts xs (map function_of functions) (part 1 xs (work_mid body) none)) }
    ensures fits { IfOk result (λ m. Fits 3 m.parts) }
{
    let mut parts = Stack::new(alloc);
    parts.push(Part {
        lists: Lists::One,
        work: body,
    })?;
    let names = put_functions(alloc, functions, &mut parts)?;
    let binders = in_order(alloc, names)?;
    Ok(Members { binders, parts })
}

/// What stands behind the functions so far.
#[derive(Drop)]
pub enum Neighbour {
    /// These forms are left to look at.
    More(Stack<Datum>),
    /// The body of the group.
    Body(Work),
}

impl Expander {
    /// Adds a function, unless one of its name is there.
    pub(crate) fn join(&mut self, group: &mut Group, function: Function) -> Result<bool, ExpandErr>
        requires named { group.old.names ≡ all_marked (binders_of group.old) }
        ensures joined { OkOrMemory result (λ joined. is_bound function.binder.name function.binder.mark (all_marked (binders_of group.old)) ≡ not joined) }
        ensures functions { IfOk result (λ joined. functions_of group.new ≡ (if joined then functions_of group.old ++ function_of function ∷ [] else functions_of group.old)) }
        ensures stays { OnOk result (Stays group.old group.new self.old.scope self.new.scope) }
        ensures macros { self.new.macros ≡ self.old.macros }
        ensures counts { self.new.counts ≡ self.old.counts }
    {
        if !group
            .names
            .insert(function.binder.name.as_bytes(), function.binder.mark)?
        {
            return Ok(false);
        }
        self.scope
            .enter(function.binder.name.as_bytes(), function.binder.mark)?;
        group.functions.push(function)?;
        Ok(true)
    }

    /// Adds the functions that follow, and gives the body behind them. A breach among these waits until the functions are expanded.
    pub(crate) fn neighbours(
        &mut self,
        group: &mut Group,
        forms: Stack<Datum>,
    ) -> Result<Work, ExpandErr>
        requires named { group.old.names ≡ all_marked (binders_of group.old) }
        ensures grouped { (s : List Marked) → self.old.scope ≡ entered (binders_of group.old) s → GroupedAs (macros_of self.old.macros) s self.old.counts (group_mid group.old (data_of forms)) group.new result self.new.counts }
        ensures stays { OnOk result (Stays group.old group.new self.old.scope self.new.scope) }
        ensures macros { self.new.macros ≡ self.old.macros }
    {
        let mut forms = forms;
        'looks: for _ in 0..u64::MAX {
            let Some(form) = forms.pop() else {
                return Err(ExpandErr::Form(group.at));
            };
            match self.neighbour(group, form, forms)? {
                Neighbour::More(others) => forms = others,
                Neighbour::Body(body) => return Ok(body),
            }
        }
        Err(ExpandErr::Memory)
    }

    fn neighbour(
        &mut self,
        group: &mut Group,
        datum: Datum,
        forms: Stack<Datum>,
    ) -> Result<Neighbour, ExpandErr>
        requires named { group.old.names ≡ all_marked (binders_of group.old) }
        ensures turns { OkOrMemory result (λ b. (s : List Marked) → self.old.scope ≡ entered (binders_of group.old) s → NeighbourAs (macros_of self.old.macros) s self.old.counts (group_mid group.old (next (form datum) (data_of forms))) group.new b self.new.counts) }
        ensures stays { OnOk result (Stays group.old group.new self.old.scope self.new.scope) }
        ensures macros { self.new.macros ≡ self.old.macros }
    {
        match self.look(datum, forms) {
            Err(ExpandErr::Form(at)) => Ok(Neighbour::Body(Work::Refused(at))),
            Err(e) => Err(e),
            Ok(Looked::Instead(others)) => Ok(Neighbour::More(others)),
            Ok(Looked::First(first)) => self.behind(group, first),
        }
    }

    /// What is no function ends a group, and stays where it is; so does a second function of one name.
    fn behind(&mut self, group: &mut Group, first: First) -> Result<Neighbour, ExpandErr>
        requires named { group.old.names ≡ all_marked (binders_of group.old) }
        ensures turns { OkOrMemory result (λ b. (n : AnyCounts) → (last : Forms) → (l : Look) → IsFirst first last l → group_turn n group.old.at (functions_of group.old) last l ≡ becomes n (neighbour_mid group.new b)) }
        ensures stays { OnOk result (Stays group.old group.new self.old.scope self.new.scope) }
        ensures macros { self.new.macros ≡ self.old.macros }
        ensures counts { self.new.counts ≡ self.old.counts }
    {
        match first {
            First::Function(at, function, others) => {
                if self.join(group, function)? {
                    Ok(Neighbour::More(others))
                } else {
                    Ok(Neighbour::Body(Work::Refused(at)))
                }
            }
            First::Variable(at, binder, value, forms) => {
                Ok(Neighbour::Body(Work::Variable(at, binder, value, forms)))
            }
            First::Expression(form, forms) => with_first(group.at, form, forms),
            First::Stuck(form, forms, _) => with_first(group.at, form, forms),
        }
    }
}

fn with_first(at: Place, datum: Datum, forms: Stack<Datum>) -> Result<Neighbour, ExpandErr>
    ensures { OkOrMemory result (λ b. (g : AnyGroup) → g.at ≡ at → neighbour_mid g b ≡ letrec_at at (functions_of g) (body at (next (form datum) (data_of forms)))) }
{
    let mut forms = forms;
    forms.push(datum)?;
    Ok(Neighbour::Body(Work::Body(at, forms)))
}
