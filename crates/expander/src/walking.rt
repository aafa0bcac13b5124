// The walk over a form: one replacement after another, and the parts from left to right.

ghost use Rattle.std.specs.Prelude.{IfOk, OnOk, ℕ, [], ◌∷◌, ◌≡◌, ◌-◌, ◌&&◌, nat_lt, if◌then◌else◌, Ok, Err};
ghost use Rattle.scheme_data.specs.Forms.{form};
ghost use Rattle.scheme_data.specs.declared.datum.LimitKind.TheVariants.{Depth};
ghost use Rattle.core_forms.specs.Mid.{raw, lambda_form, body, mid_nesting, group};
ghost use Rattle.core_forms.specs.Scope.{entered};
ghost use Rattle.core_forms.specs.Bodies.{body_turn, variable_at};
ghost use Rattle.core_forms.specs.Rewriting.{Walked, rest_progress};
ghost use Rattle.core_forms.specs.Code.{data_of, nests_in, OkOrMemory};
ghost use Rattle.core_forms.specs.Working.{open_of, function_of, node_mid, work_mid};
ghost use Rattle.core_forms.specs.declared.error.ExpandErr.TheVariants.{Limit};
ghost use Rattle.expander.specs.declared.walking.Formed.TheVariants.{Done};
ghost use Rattle.expansion_steps.specs.Heads.{macros_of};
ghost use Rattle.expander.specs.Around.{SameAround};
ghost use Rattle.expander.specs.Walks.{MadeFrom, StartsAs, first_look, TurnWalked, Nests, Fits, PartsWalked, RestWalked, IsVariable, GroupAs, sequence_mid, Ready, EntryReady, as_entry, as_following, FormWalked, EntryWalked, FormLeads, EntryLeads, NodeLeads, MadeLeads, FollowingLeads, NextLeads, PartLeads, PartLeft};

use crate::expander::Expander;
use crate::grouping::{Group, Members, parts_of};
use core_forms::{
    Binder, CoreExpr, ExpandErr, Function, Keyword, Kind, Lists, Made, Node, Open, Part, Turned,
    Work, assemble, core_turn, nests_within, one_part,
};
use expansion_steps::{First, Looked, Settled};
use scheme_data::{Datum, LimitKind, Place, Stack};
use sqlite_items::Items;
use std::alloc::Global;

/// What refuses a core form whose lists nest too deep.
const TOO_DEEP: ExpandErr = ExpandErr::Limit(LimitKind::Depth);

/// Whether a datum lies within the limit in a `quote` form.
fn quotes_within(datum: &Datum, room: u32) -> bool
    ensures { result ≡ (nat_lt 0 room && nests_in (room - 1) (form datum.now)) }
{
    room > 0 && nests_within(datum, room - 1)
}

/// A form of which it is known what core form stands there, with its parts as they are.
#[derive(Drop)]
enum Formed {
    /// Nothing is left to expand.
    Done(CoreExpr),
    Node(Node),
}

/// A piece of work that is taken as far as it goes without a look into parts.
#[derive(Drop)]
enum Entry {
    Form(Formed),
    /// An expression that isn't the last of a body, and the forms that follow.
    Sequence(Place, Datum, Stack<Datum>),
}

/// A constant, or a quoted datum, that lies within the limit.
fn leaf(nests: bool, expr: CoreExpr) -> Result<Formed, ExpandErr>
    ensures { result ≡ (if nests then Ok (Done expr) else Err (Limit Depth)) }
{
    if nests {
        Ok(Formed::Done(expr))
    } else {
        Err(TOO_DEEP)
    }
}

fn form_entry(formed: Result<Formed, ExpandErr>) -> Result<Entry, ExpandErr>
    ensures { result ≡ as_entry formed }
{
    match formed {
        Ok(formed) => Ok(Entry::Form(formed)),
        Err(e) => Err(e),
    }
}

/// A part of a sequence, and the forms that are left behind it: none behind the last.
#[derive(Drop)]
struct Following {
    formed: Formed,
    left: Stack<Datum>,
}

/// A part, as far as it goes, and how many lists may still stand in each other in it.
#[derive(Drop)]
struct Inside {
    room: u32,
    entry: Entry,
}

/// The names of a `letrec`, and its parts.
#[derive(Drop)]
struct Letrec {
    binders: Items<Binder>,
    inner: Stack<Part>,
}

fn following_of(
    formed: Result<Formed, ExpandErr>,
    left: Stack<Datum>,
) -> Result<Following, ExpandErr>
    ensures { result ≡ as_following formed left }
{
    match formed {
        Ok(formed) => Ok(Following { formed, left }),
        Err(e) => Err(e),
    }
}

/// A `let` of one name over forms.
fn variable_node(
    alloc: Global,
    at: Place,
    binder: Binder,
    value: Open,
    forms: Stack<Datum>,
) -> Result<Node, ExpandErr>
    ensures { OkOrMemory result (λ n. IsVariable n at binder (open_of value) (data_of forms)) }
{
    let mut outer = Stack::new(alloc);
    outer.push(Part {
        lists: Lists::Three,
        work: Work::Raw(value),
    })?;
    let mut binders = Items::new(alloc);
    binders.push(binder)?;
    Ok(Node {
        at,
        kind: Kind::Let(binders),
        nesting: 3,
        outer,
        inner: one_part(alloc, Work::Body(at, forms))?,
    })
}

/// A core form, where lists may still nest so deep in it.
fn node_form(room: u32, node: Node) -> Result<Formed, ExpandErr>
    requires nests { node.nesting ≡ mid_nesting (node_mid node) }
    ensures leads { NodeLeads room (node_mid node) result }
    ensures ready { IfOk result (Ready room) }
{
    if node.nesting > room {
        return Err(TOO_DEEP);
    }
    Ok(Formed::Node(node))
}

/// What a form is once its core form is known.
fn made_form(room: u32, made: Made) -> Result<Formed, ExpandErr>
    requires nests { Nests made }
    ensures leads { MadeLeads room made result }
    ensures ready { IfOk result (Ready room) }
{
    match made {
        Made::Leaf(expr) => Ok(Formed::Done(expr)),
        Made::Constant(at, datum) => {
            leaf(nests_within(&datum, room), CoreExpr::Constant(at, datum))
        }
        Made::Quoted(at, datum) => { leaf(quotes_within(&datum, room), CoreExpr::Quote(at, datum)) }
        Made::Node(node) => node_form(room, node),
    }
}

/// A definition of a variable: a `let` over the forms that follow.
fn variable_form(
    alloc: Global,
    room: u32,
    at: Place,
    binder: Binder,
    value: Open,
    forms: Stack<Datum>,
) -> Result<Formed, ExpandErr>
    ensures leads { NodeLeads room (variable_at at binder (open_of value) (data_of forms)) result }
    ensures ready { IfOk result (Ready room) }
{
    let node = variable_node(alloc, at, binder, value, forms)?;
    node_form(room, node)
}

impl Expander {
    /// The core form that stands in the place of a form in the end, with its parts as they are.
    fn core_of(&mut self, opened: Open) -> Result<Made, ExpandErr>
        ensures made { MadeFrom (macros_of self.old.macros) self.old.scope self.old.counts (raw (open_of opened)) result self.new.counts }
        ensures around { SameAround self.old self.new }
    {
        let mut opened = opened;
        'turns: for _ in 0..u64::MAX {
            match self.turn(opened)? {
                Turned::Again(other) => opened = other,
                Turned::Core(made) => return Ok(made),
            }
        }
        Err(ExpandErr::Memory)
    }

    /// The core form of a value of a `letrec`, which is a `lambda` form.
    fn lambda_of(&mut self, at: Place, value: Datum) -> Result<Made, ExpandErr>
        ensures made { MadeFrom (macros_of self.old.macros) self.old.scope self.old.counts (lambda_form at (form value)) result self.new.counts }
        ensures around { SameAround self.old self.new }
    {
        match self.settle(value)? {
            Settled::Lambda(place, forms) => core_turn(self.alloc, place, Keyword::Lambda, forms),
            Settled::Other(_) => Err(ExpandErr::Form(at)),
            Settled::Stuck(_, e) => Err(e),
        }
    }

    /// What stands first in a body in the end.
    fn first_of(&mut self, at: Place, forms: Stack<Datum>) -> Result<First, ExpandErr>
        ensures starts { StartsAs (macros_of self.old.macros) self.old.scope self.old.counts at (data_of forms) result self.new.counts }
        ensures around { SameAround self.old self.new }
    {
        let mut forms = forms;
        'looks: for _ in 0..u64::MAX {
            let Some(form) = forms.pop() else {
                return Err(ExpandErr::Form(at));
            };
            match self.look(form, forms)? {
                Looked::Instead(others) => forms = others,
                Looked::First(first) => return Ok(first),
            }
        }
        Err(ExpandErr::Memory)
    }

    /// The functions of a group and the body behind them. Their names are bound as they are found.
    fn group_of(
        &mut self,
        at: Place,
        first: Function,
        forms: Stack<Datum>,
    ) -> Result<Letrec, ExpandErr>
        ensures closes { (room : ℕ) → GroupAs (macros_of self.old.macros) room self.old.scope self.old.counts (group at (function_of first ∷ []) (data_of forms)) at result self.new.counts }
        ensures entered { IfOk result (λ g. self.new.scope ≡ entered g.binders self.old.scope) }
        ensures fits { IfOk result (λ g. Fits 3 g.inner) }
        ensures macros { self.new.macros ≡ self.old.macros }
    {
        let mut group = Group::new(self.alloc, at);
        self.join(&mut group, first)?;
        let body = self.neighbours(&mut group, forms)?;
        let Group { functions, .. } = group;
        let Members { binders, parts } = parts_of(self.alloc, functions, body)?;
        Ok(Letrec {
            binders,
            inner: parts,
        })
    }

    /// A form that is known to the parts of its core form.
    fn open_form(&mut self, room: u32, opened: Open) -> Result<Formed, ExpandErr>
        ensures leads { FormLeads (macros_of self.old.macros) room self.old.scope (Walked (macros_of self.old.macros) room self.old.scope self.old.counts (raw (open_of opened))) result self.new.counts }
        ensures ready { IfOk result (Ready room) }
        ensures around { SameAround self.old self.new }
    {
        let made = self.core_of(opened)?;
        made_form(room, made)
    }

    /// The same at a name of a `letrec`.
    fn value_form(&mut self, room: u32, at: Place, value: Datum) -> Result<Formed, ExpandErr>
        ensures leads { FormLeads (macros_of self.old.macros) room self.old.scope (Walked (macros_of self.old.macros) room self.old.scope self.old.counts (lambda_form at (form value))) result self.new.counts }
        ensures ready { IfOk result (Ready room) }
        ensures around { SameAround self.old self.new }
    {
        let made = self.lambda_of(at, value)?;
        made_form(room, made)
    }

    /// Neighbouring definitions of functions: a `letrec` over the forms that follow.
    fn group_form(
        &mut self,
        room: u32,
        at: Place,
        first: Function,
        forms: Stack<Datum>,
    ) -> Result<Formed, ExpandErr>
        ensures leads { FormLeads (macros_of self.old.macros) room self.old.scope (Walked (macros_of self.old.macros) room self.old.scope self.old.counts (group at (function_of first ∷ []) (data_of forms))) result self.new.counts }
        ensures ready { IfOk result (Ready room) }
        ensures around { OnOk result (SameAround self.old self.new) }
    {
        let Letrec { binders, inner } = self.group_of(at, first, forms)?;
        if room < 3 {
            return Err(TOO_DEEP);
        }
        self.scope.leave(binders.len());
        Ok(Formed::Node(Node {
            at,
            kind: Kind::Letrec(binders),
            nesting: 3,
            outer: Stack::new(self.alloc),
            inner,
        }))
    }

    /// A body of which it is known what stands first.
    fn first_entry(&mut self, room: u32, at: Place, first: First) -> Result<Entry, ExpandErr>
        ensures leads { EntryLeads (macros_of self.old.macros) room self.old.scope (TurnWalked (macros_of self.old.macros) room self.old.scope (body_turn self.old.counts at (first_look first))) result self.new.counts }
        ensures ready { IfOk result (EntryReady room) }
        ensures around { OnOk result (SameAround self.old self.new) }
    {
        match first {
            First::Expression(form, forms) => {
                if forms.is_empty() {
                    return form_entry(self.open_form(room, Open::Datum(form)));
                }
                Ok(Entry::Sequence(at, form, forms))
            }
            First::Variable(at, binder, value, forms) => {
                form_entry(variable_form(self.alloc, room, at, binder, value, forms))
            }
            First::Function(at, function, forms) => {
                form_entry(self.group_form(room, at, function, forms))
            }
            First::Stuck(_, _, e) => Err(e),
        }
    }

    fn body_entry(&mut self, room: u32, at: Place, forms: Stack<Datum>) -> Result<Entry, ExpandErr>
        ensures leads { EntryLeads (macros_of self.old.macros) room self.old.scope (Walked (macros_of self.old.macros) room self.old.scope self.old.counts (body at (data_of forms))) result self.new.counts }
        ensures ready { IfOk result (EntryReady room) }
        ensures around { OnOk result (SameAround self.old self.new) }
    {
        let first = self.first_of(at, forms)?;
        self.first_entry(room, at, first)
    }

    /// A piece of work, as far as it goes without a look into parts.
    #[inline(never)]
    fn entry(&mut self, room: u32, work: Work) -> Result<Entry, ExpandErr>
        ensures leads { EntryLeads (macros_of self.old.macros) room self.old.scope (Walked (macros_of self.old.macros) room self.old.scope self.old.counts (work_mid work)) result self.new.counts }
        ensures ready { IfOk result (EntryReady room) }
        ensures around { OnOk result (SameAround self.old self.new) }
    {
        match work {
            Work::Raw(open) => form_entry(self.open_form(room, open)),
            Work::LetStar(at, bindings, body) => {
                form_entry(self.open_form(room, Open::LetStar(at, bindings, body)))
            }
            Work::Choice(at, test, arm, keyword, forms) => {
                form_entry(self.open_form(room, Open::Choice(at, test, arm, keyword, forms)))
            }
            Work::LambdaForm(at, value) => form_entry(self.value_form(room, at, value)),
            Work::Body(at, forms) => self.body_entry(room, at, forms),
            Work::Variable(at, binder, value, forms) => {
                form_entry(variable_form(self.alloc, room, at, binder, value, forms))
            }
            Work::Refused(at) => Err(ExpandErr::Form(at)),
        }
    }

    /// The next part of a sequence, of which it is known what stands first in it. What is no expression is the last.
    fn following(&mut self, room: u32, first: First) -> Result<Following, ExpandErr>
        ensures leads { (at : Place) → FollowingLeads (macros_of self.old.macros) room self.old.scope (rest_progress room self.old.counts at (first_look first)) at result self.new.counts }
        ensures ready { IfOk result (λ f. Ready room f.formed) }
        ensures around { OnOk result (SameAround self.old self.new) }
    {
        match first {
            First::Expression(form, left) => {
                following_of(self.open_form(room, Open::Datum(form)), left)
            }
            First::Variable(at, binder, value, forms) => {
                let formed = variable_form(self.alloc, room, at, binder, value, forms);
                following_of(formed, Stack::new(self.alloc))
            }
            First::Function(at, function, forms) => {
                let formed = self.group_form(room, at, function, forms);
                following_of(formed, Stack::new(self.alloc))
            }
            First::Stuck(_, _, e) => Err(e),
        }
    }

    /// The next part of a sequence.
    #[inline(never)]
    fn next(&mut self, room: u32, at: Place, forms: Stack<Datum>) -> Result<Following, ExpandErr>
        ensures leads { NextLeads (macros_of self.old.macros) room self.old.scope self.old.counts at (data_of forms) result self.new.counts }
        ensures ready { IfOk result (λ f. Ready room f.formed) }
        ensures around { OnOk result (SameAround self.old self.new) }
    {
        let first = self.first_of(at, forms)?;
        self.following(room, first)
    }

    /// The first of some parts; none where none is left.
    #[inline(never)]
    fn first_part(
        &mut self,
        room: u32,
        parts: &mut Stack<Part>,
    ) -> Result<Option<Inside>, ExpandErr>
        requires fits { Fits room parts.old }
        ensures leads { PartLeads (macros_of self.old.macros) room self.old.scope self.old.counts parts.old result parts.new self.new.counts }
        ensures left { IfOk result (PartLeft room parts.old parts.new) }
        ensures around { OnOk result (SameAround self.old self.new) }
    {
        match parts.pop() {
            Some(Part { lists, work }) => {
                let inside = room - lists.count();
                let entry = self.entry(inside, work)?;
                Ok(Some(Inside {
                    room: inside,
                    entry,
                }))
            }
            None => Ok(None),
        }
    }

    /// Expands what is left, where so many lists may still stand in each other.
    pub(crate) fn walk(&mut self, room: u32, work: Work) -> Result<CoreExpr, ExpandErr>
        ensures walked { Walked (macros_of self.old.macros) room self.old.scope self.old.counts (work_mid work) result self.new.counts }
        ensures around { OnOk result (SameAround self.old self.new) }
    {
        let entry = self.entry(room, work)?;
        self.walk_entry(room, entry)
    }

    /// The rest of the walk. Only few small functions call each other here, since each level of a form takes a frame
    /// of each of them; what they call stays out of their frames.
    #[cycle(walk)]
    fn walk_entry(&mut self, room: u32, entry: Entry) -> Result<CoreExpr, ExpandErr>
        requires ready { EntryReady room entry }
        ensures walked { EntryWalked (macros_of self.old.macros) room self.old.scope self.old.counts entry result self.new.counts }
        ensures around { OnOk result (SameAround self.old self.new) }
    {
        match entry {
            Entry::Form(formed) => self.walk_form(room, formed),
            Entry::Sequence(at, first, forms) => self.walk_sequence(room, at, first, forms),
        }
    }

    #[cycle(walk)]
    fn walk_form(&mut self, room: u32, formed: Formed) -> Result<CoreExpr, ExpandErr>
        requires ready { Ready room formed }
        ensures walked { FormWalked (macros_of self.old.macros) room self.old.scope self.old.counts formed result self.new.counts }
        ensures around { OnOk result (SameAround self.old self.new) }
    {
        match formed {
            Formed::Done(expr) => Ok(expr),
            Formed::Node(node) => self.walk_node(room, node),
        }
    }

    #[cycle(walk)]
    fn walk_node(&mut self, room: u32, node: Node) -> Result<CoreExpr, ExpandErr>
        requires outer { Fits room node.outer }
        requires inner { Fits room node.inner }
        ensures walked { Walked (macros_of self.old.macros) room self.old.scope self.old.counts (node_mid node) result self.new.counts }
        ensures around { OnOk result (SameAround self.old self.new) }
    {
        let Node {
            at,
            kind,
            outer,
            inner,
            ..
        } = node;
        let mut parts = Items::new(self.alloc);
        self.walk_parts(room, outer, &mut parts)?;
        let count = self.enter_kind(&kind)?;
        self.walk_parts(room, inner, &mut parts)?;
        self.scope.leave(count);
        assemble(self.alloc, at, kind, parts)
    }

    #[cycle(walk)]
    fn walk_parts(
        &mut self,
        room: u32,
        parts: Stack<Part>,
        done: &mut Items<CoreExpr>,
    ) -> Result<(), ExpandErr>
        requires fits { Fits room parts }
        ensures walked { PartsWalked (macros_of self.old.macros) room self.old.scope self.old.counts parts done.old result done.new self.new.counts }
        ensures around { OnOk result (SameAround self.old self.new) }
    {
        let mut parts = parts;
        'parts: while let Some(Inside { room, entry }) = self.first_part(room, &mut parts)? {
            let expr = self.walk_entry(room, entry)?;
            done.push(expr)?;
        }
        Ok(())
    }

    /// An expression that isn't the last of a body, and the forms that follow.
    #[inline(never)]
    #[cycle(walk)]
    fn walk_sequence(
        &mut self,
        room: u32,
        at: Place,
        first: Datum,
        forms: Stack<Datum>,
    ) -> Result<CoreExpr, ExpandErr>
        ensures walked { Walked (macros_of self.old.macros) room self.old.scope self.old.counts (sequence_mid at first forms) result self.new.counts }
        ensures around { OnOk result (SameAround self.old self.new) }
    {
        let mut parts = Items::new(self.alloc);
        let formed = self.open_form(room, Open::Datum(first))?;
        let expr = self.walk_form(room, formed)?;
        parts.push(expr)?;
        self.walk_rest(room, at, forms, &mut parts)?;
        assemble(self.alloc, at, Kind::Begin, parts)
    }

    /// The forms of a sequence that are left, at least one.
    #[cycle(walk)]
    fn walk_rest(
        &mut self,
        room: u32,
        at: Place,
        forms: Stack<Datum>,
        parts: &mut Items<CoreExpr>,
    ) -> Result<(), ExpandErr>
        ensures walked { RestWalked (macros_of self.old.macros) room self.old.scope self.old.counts at (data_of forms) parts.old result parts.new self.new.counts }
        ensures around { OnOk result (SameAround self.old self.new) }
    {
        let mut forms = forms;
        'looks: for _ in 0..u64::MAX {
            let Following { formed, left } = self.next(room, at, forms)?;
            let expr = self.walk_form(room, formed)?;
            parts.push(expr)?;
            if left.is_empty() {
                return Ok(());
            }
            forms = left;
        }
        Err(ExpandErr::Memory)
    }
}
