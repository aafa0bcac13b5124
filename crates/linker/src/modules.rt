// The modules of a link, found by their names.
ghost use Rattle.std.specs.Prelude.{◌≡◌, ℕ, List, true, false, [], ◌∷◌, ◌++◌, map, IfOk, OnOk, IfSome, IfNone};
ghost use Rattle.std.specs.Option.{option_copied};
ghost use Rattle.scheme_data.specs.Names.{are_distinct};
ghost use Rattle.core_tree.specs.WellFormed.{module_of, row_of};
ghost use Rattle.meaning.specs.Order.{numbers_of};
ghost use Rattle.linker.specs.Links.{names_of, are_modules, current_row, imports_in};
ghost use Rattle.linker.specs.Modules.{tree_of, trees};

use crate::indexed::Indexed;
use core_tree::{ImportItem, Use};
use iface_text::Row;
use name_table::NameTable;
use scheme_data::{List, OutOfMemory, Text};
use std::alloc::Global;

/// The most modules of one link.
const MOST_MODULES: usize = 200;

/// Objects, and the names of their modules, each in the place of its object.
#[derive(Drop)]
pub struct Modules {
    pub objects: Vec<Indexed>,
    pub names: NameTable,
    pub ghost named: { names ≡ names_of (trees objects.items) },
}

/// The modules of these objects; none where they are too many, or two have one name.
pub fn modules_of(alloc: Global, objects: Vec<Indexed>) -> Result<Option<Modules>, OutOfMemory>
    ensures some { IfOk result (λ modules. IfSome modules (λ m. m.objects ≡ objects)) }
    ensures are { IfOk result (λ modules. IfSome modules (λ m. are_modules (trees objects.items) ≡ true)) }
    ensures none { IfOk result (λ modules. IfNone modules (are_modules (trees objects.items) ≡ false)) }
{
    if objects.len() > MOST_MODULES {
        return Ok(None);
    }
    match module_names(alloc, &objects)? {
        Some(names) => Ok(Some(Modules { objects, names })),
        None => Ok(None),
    }
}

/// The names of the objects' modules; none where two have one name.
fn module_names(alloc: Global, objects: &[Indexed]) -> Result<Option<NameTable>, OutOfMemory>
    ensures some { IfOk result (λ names. IfSome names (λ ns. ns ≡ names_of (trees objects.now))) }
    ensures distinct { IfOk result (λ names. IfSome names (λ ns. are_distinct (names_of (trees objects.now)) ≡ true)) }
    ensures none { IfOk result (λ names. IfNone names (are_distinct (names_of (trees objects.now)) ≡ false)) }
{
    let mut names = NameTable::new(alloc);
    for indexed in objects {
        if !names.insert(indexed.object.module_name.as_bytes())? {
            return Ok(None);
        }
    }
    Ok(Some(names))
}

/// The module that is used.
pub fn used_module(used: &Use) -> &Text
    ensures { result.now ≡ module_of used.now }
{
    match used {
        Use::From(name, _) | Use::Need(name, _) => name,
    }
}

/// The row that is used.
pub fn used_row(used: &Use) -> &Row
    ensures { result.now ≡ row_of used.now }
{
    match used {
        Use::From(_, row) | Use::Need(_, row) => row,
    }
}

impl Modules {
    /// The row that a used name has now; none where its module doesn't export it, or isn't there.
    pub fn current_row(&self, used: &Use) -> Option<&Row>
        ensures { option_copied result ≡ current_row (trees self.now.objects.items) used.now }
    {
        let place = self.names.position(used_module(used).as_bytes())?;
        let indexed = self.objects.get(place)?;
        let row = indexed.exported.position(used_row(used).name.as_bytes())?;
        indexed.object.exports.get(row as u64)
    }

    /// For each module the numbers of those that it imports.
    pub fn imports(&self, alloc: Global) -> Result<List<List<usize>>, OutOfMemory>
        ensures { IfOk result (λ g. g ≡ imports_in (trees self.now.objects.items)) }
    {
        let mut imports = List::new(alloc);
        for indexed in &self.objects {
            imports.push(self.import_numbers(alloc, indexed.object.imports.as_slice())?)?;
        }
        Ok(imports)
    }

    /// The numbers of the modules that these items import.
    fn import_numbers(
        &self,
        alloc: Global,
        items: &[ImportItem],
    ) -> Result<List<usize>, OutOfMemory>
        ensures { IfOk result (λ ns. ns ≡ numbers_of self.now.names items.now) }
    {
        let mut numbers = List::new(alloc);
        for item in items {
            self.add_number(&mut numbers, item)?;
        }
        Ok(numbers)
    }

    /// Adds the number of the module that an item imports, if it is there.
    fn add_number(&self, numbers: &mut List<usize>, item: &ImportItem) -> Result<(), OutOfMemory>
        ensures { OnOk result (numbers.new ≡ numbers.old ++ numbers_of self.now.names (item.now ∷ [])) }
    {
        match self.names.position(item.module_name.as_bytes()) {
            Some(number) => numbers.push(number),
            None => Ok(()),
        }
    }
}
