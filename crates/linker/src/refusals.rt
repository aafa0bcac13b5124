// Why modules aren't linked.
ghost use Rattle.std.specs.Prelude.{◌≡◌, ℕ, true, IfOk};
ghost use Rattle.std.specs.List.{list_all};
ghost use Rattle.core_tree.specs.WellFormed.{row_of};
ghost use Rattle.linker.specs.Links.{same_type, same_types, same_kind, agrees, are_current, current_row, are_modules, missing_module, missing_modules, missing_name, missing_names, has_one_main, link_refusal};
ghost use Rattle.linker.specs.Modules.{trees};

use crate::indexed::Indexed;
use crate::linking::LinkErr;
use crate::modules::{Modules, used_module, used_row};
use built_table::Ty;
use core_tree::{ImportItem, Use};
use iface_text::RowKind;
use scheme_data::OutOfMemory;
use std::alloc::Global;

fn is_same_type(a: Ty, b: Ty) -> bool
    ensures { result ≡ same_type a b }
{
    a == b
}

fn are_same_types(a: &[Ty], b: &[Ty]) -> bool
    ensures { result ≡ same_types a.now b.now }
{
    if a.len() != b.len() {
        return false;
    }
    for (i, ty) in a.iter().enumerate() {
        if !is_same_type(*ty, b[i]) {
            return false;
        }
    }
    true
}

fn is_same_kind(a: &RowKind, b: &RowKind) -> bool
    ensures { result ≡ same_kind a.now b.now }
{
    let RowKind::Fun(params, gives) = a;
    let RowKind::Fun(other_params, other_gives) = b;
    are_same_types(params.as_slice(), other_params.as_slice()) && is_same_type(*gives, *other_gives)
}

/// Whether exactly one object has a main function.
fn has_single_main(objects: &[Indexed]) -> bool
    ensures { result ≡ has_one_main (trees objects.now) }
{
    let mut mains: usize = 0;
    for indexed in objects {
        if indexed.object.main.is_some() {
            mains += 1;
        }
    }
    mains == 1
}

impl Modules {
    /// Why the modules aren't linked, if they aren't.
    pub fn refusal(&self, alloc: Global) -> Result<Option<LinkErr>, OutOfMemory>
        requires { are_modules (trees self.now.objects.items) ≡ true }
        ensures { IfOk result (λ r. r ≡ link_refusal (trees self.now.objects.items)) }
    {
        if let Some(missing) = self.missing_modules(alloc)? {
            return Ok(Some(missing));
        }
        if let Some(missing) = self.missing_names(alloc)? {
            return Ok(Some(missing));
        }
        if self.are_current() && has_single_main(&self.objects) {
            return Ok(None);
        }
        Ok(Some(LinkErr::NotBuilt))
    }

    /// The first module that is imported and missing, with the number of the object.
    fn missing_modules(&self, alloc: Global) -> Result<Option<LinkErr>, OutOfMemory>
        ensures { IfOk result (λ r. r ≡ missing_modules (trees self.now.objects.items)) }
    {
        for (place, indexed) in self.objects.iter().enumerate() {
            let items = indexed.object.imports.as_slice();
            if let Some(missing) = self.missing_module(alloc, place as u64 + 1, items)? {
                return Ok(Some(missing));
            }
        }
        Ok(None)
    }

    fn missing_module(
        &self,
        alloc: Global,
        number: u64,
        items: &[ImportItem],
    ) -> Result<Option<LinkErr>, OutOfMemory>
        ensures { IfOk result (λ r. r ≡ missing_module self.now.names number items.now) }
    {
        for item in items {
            if !self.names.contains(item.module_name.as_bytes()) {
                let name = item.module_name.copy(alloc)?;
                return Ok(Some(LinkErr::MissingModule(number, name)));
            }
        }
        Ok(None)
    }

    /// The first name that is used and missing, with the number of the object.
    fn missing_names(&self, alloc: Global) -> Result<Option<LinkErr>, OutOfMemory>
        ensures { IfOk result (λ r. r ≡ missing_names (trees self.now.objects.items)) }
    {
        for (place, indexed) in self.objects.iter().enumerate() {
            let uses = indexed.object.uses.as_slice();
            if let Some(missing) = self.missing_name(alloc, place as u64 + 1, uses)? {
                return Ok(Some(missing));
            }
        }
        Ok(None)
    }

    fn missing_name(
        &self,
        alloc: Global,
        number: u64,
        uses: &[Use],
    ) -> Result<Option<LinkErr>, OutOfMemory>
        ensures { IfOk result (λ r. r ≡ missing_name (trees self.now.objects.items) number uses.now) }
    {
        for used in uses {
            if self.current_row(used).is_none() {
                let module_name = used_module(used).copy(alloc)?;
                let name = used_row(used).name.copy(alloc)?;
                return Ok(Some(LinkErr::MissingName(number, module_name, name)));
            }
        }
        Ok(None)
    }

    /// Whether each use has the signature that its name has now.
    fn are_current(&self) -> bool
        ensures { result ≡ are_current (trees self.now.objects.items) }
    {
        for indexed in &self.objects {
            if !self.uses_are_current(indexed.object.uses.as_slice()) {
                return false;
            }
        }
        true
    }

    fn uses_are_current(&self, uses: &[Use]) -> bool
        ensures { result ≡ list_all (λ u. agrees (row_of u) (current_row (trees self.now.objects.items) u)) uses.now }
    {
        uses.iter().all(|used| self.is_current(used))
    }

    /// Whether a use has the signature that its name has now.
    fn is_current(&self, used: &Use) -> bool
        ensures { result ≡ agrees (row_of used.now) (current_row (trees self.now.objects.items) used.now) }
    {
        match self.current_row(used) {
            Some(current) => is_same_kind(&used_row(used).kind, &current.kind),
            None => false,
        }
    }
}
