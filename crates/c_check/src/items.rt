// Items, one after another, up to the first that is wrong.
ghost use Rattle.std.specs.Prelude.{◌≡◌, ℕ, List, None, ◌++◌, IfOk, OnOk};
ghost use Rattle.c_tree.specs.Code.{external, global, declared, defined};
ghost use Rattle.c_tree.specs.Functions.{fun_of, item_of, items_of};
ghost use Rattle.c_meaning.specs.Plain.{defined_names};
ghost use Rattle.c_meaning.specs.Breaches.{has};
ghost use Rattle.c_meaning.specs.Checked.{item_breaches, after_item, breach, name_of_item, items_breaches};
ghost use Rattle.c_check.specs.Firsts.{first};
ghost use Rattle.c_check.specs.Knowns.{known_of, SameKnown};

use crate::causes::unless;
use crate::declared::Shape;
use crate::known::{Known, Made};
use crate::steps::note;
use c_meaning::{BadCause, Breach};
use c_tree::{CFun, CItem, CTy, CVar};
use scheme_data::{OutOfMemory, Text};
use std::alloc::Global;

impl Known {
    fn add_global(&mut self, v: &CVar) -> Result<(), OutOfMemory>
        ensures { OnOk result (SameKnown (known_of self.new) (after_item (known_of self.old) (external v.now))) }
    {
        self.globals.add(v)?;
        Ok(())
    }

    fn define_global(&mut self, v: &CVar) -> Result<(), OutOfMemory>
        ensures { OnOk result (SameKnown (known_of self.new) (after_item (known_of self.old) (global v.now))) }
    {
        self.add_global(v)?;
        note(&mut self.names, v.name.as_bytes())?;
        Ok(())
    }

    fn declare(&mut self, gives: CTy, name: &[u8], params: &[CTy]) -> Result<(), OutOfMemory>
        ensures { OnOk result (SameKnown (known_of self.new) (after_item (known_of self.old) (declared gives name.now params.now))) }
    {
        let shape = Shape::of(self.alloc, gives, params)?;
        self.functions.declare(name, shape)?;
        Ok(())
    }

    fn define(&mut self, f: &CFun) -> Result<(), OutOfMemory>
        ensures { OnOk result (SameKnown (known_of self.new) (after_item (known_of self.old) (defined (fun_of f.now)))) }
    {
        let shape = Shape::of_function(self.alloc, f)?;
        self.functions.declare(f.name.as_bytes(), shape)?;
        note(&mut self.names, f.name.as_bytes())?;
        Ok(())
    }

    fn admit_external(&mut self, v: &CVar) -> Result<Option<BadCause>, OutOfMemory>
        ensures fault { IfOk result (λ fault. fault ≡ first (item_breaches (known_of self.old) (external v.now))) }
        ensures known { IfOk result (λ fault. fault ≡ None → SameKnown (known_of self.new) (after_item (known_of self.old) (external v.now))) }
    {
        let fault = self.global_fault(v);
        if fault.is_some() {
            return Ok(fault);
        }
        self.add_global(v)?;
        Ok(None)
    }

    fn definition_fault(&self, v: &CVar) -> Option<BadCause>
        ensures { result ≡ first (item_breaches (known_of self.now) (global v.now)) }
    {
        self.global_fault(v)
            .or(unless(BadCause::Twice, self.is_new(v.name.as_bytes())))
    }

    fn admit_global(&mut self, v: &CVar) -> Result<Option<BadCause>, OutOfMemory>
        ensures fault { IfOk result (λ fault. fault ≡ first (item_breaches (known_of self.old) (global v.now))) }
        ensures known { IfOk result (λ fault. fault ≡ None → SameKnown (known_of self.new) (after_item (known_of self.old) (global v.now))) }
    {
        let fault = self.definition_fault(v);
        if fault.is_some() {
            return Ok(fault);
        }
        self.define_global(v)?;
        Ok(None)
    }

    fn admit_declaration(
        &mut self,
        gives: CTy,
        name: &[u8],
        params: &[CTy],
    ) -> Result<Option<BadCause>, OutOfMemory>
        ensures fault { IfOk result (λ fault. fault ≡ first (item_breaches (known_of self.old) (declared gives name.now params.now))) }
        ensures known { IfOk result (λ fault. fault ≡ None → SameKnown (known_of self.new) (after_item (known_of self.old) (declared gives name.now params.now))) }
    {
        let fault = self.declaration_fault(gives, name, params);
        if fault.is_some() {
            return Ok(fault);
        }
        self.declare(gives, name, params)?;
        Ok(None)
    }

    fn admit_definition(&mut self, f: &CFun) -> Result<Option<BadCause>, OutOfMemory>
        ensures fault { IfOk result (λ fault. fault ≡ first (item_breaches (known_of self.old) (defined (fun_of f.now)))) }
        ensures known { IfOk result (λ fault. fault ≡ None → SameKnown (known_of self.new) (after_item (known_of self.old) (defined (fun_of f.now)))) }
    {
        match self.variables_of(f)? {
            Made::Bad(cause) => Ok(Some(cause)),
            Made::Good(variables) => {
                self.define(f)?;
                let fault = self.body_fault(f, variables)?;
                Ok(fault)
            }
        }
    }

    /// Adds what an item declares, where nothing is wrong in it.
    pub fn admit(&mut self, item: &CItem) -> Result<Option<BadCause>, OutOfMemory>
        ensures fault { IfOk result (λ fault. fault ≡ first (item_breaches (known_of self.old) (item_of item.now))) }
        ensures known { IfOk result (λ fault. fault ≡ None → SameKnown (known_of self.new) (after_item (known_of self.old) (item_of item.now))) }
    {
        match item {
            CItem::Extern(v) => self.admit_external(v),
            CItem::Global(v) => self.admit_global(v),
            CItem::Declared(gives, name, params) => {
                self.admit_declaration(*gives, name.as_bytes(), params.as_slice())
            }
            CItem::Defined(f) => self.admit_definition(f),
        }
    }
}

/// The name that an item declares.
pub fn name_of(item: &CItem) -> &[u8]
    ensures { result.now ≡ name_of_item (item_of item.now) }
{
    match item {
        CItem::Extern(v) => v.name.as_bytes(),
        CItem::Global(v) => v.name.as_bytes(),
        CItem::Declared(_, name, _) => name.as_bytes(),
        CItem::Defined(f) => f.name.as_bytes(),
    }
}

/// A breach under a name.
pub fn breach_of(alloc: Global, name: &[u8], cause: BadCause) -> Result<Breach, OutOfMemory>
    ensures { IfOk result (λ b. b ≡ breach name.now cause) }
{
    Ok(Breach {
        name: Text::from_bytes(alloc, name)?,
        cause,
    })
}

/// The first breach in these items, behind what is known.
pub fn items_breach(known: &mut Known, items: &[CItem]) -> Result<Option<Breach>, OutOfMemory>
    ensures breach { IfOk result (λ b. b ≡ first (items_breaches (known_of known.old) (items_of items.now))) }
    ensures names { IfOk result (λ b. b ≡ None → (n : List ℕ) → has (known_of known.new).names n ≡ has ((known_of known.old).names ++ defined_names (items_of items.now)) n) }
{
    for item in items {
        if let Some(cause) = known.admit(item)? {
            return Ok(Some(breach_of(known.alloc, name_of(item), cause)?));
        }
    }
    Ok(None)
}
