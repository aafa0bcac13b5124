ghost use Rattle.std.specs.Prelude.{◌≡◌, ◌≤◌, [], ◌∷◌, not, ◌++◌, length, map, drop, IfOk, IsTrue};
ghost use Rattle.scheme_data.specs.Forms.{form, forms};
ghost use Rattle.marked_names.specs.MarkedNames.{has_marked};
ghost use Rattle.syntax_rules.specs.Patterns.{names_of, names_in, paths_of, paths_in, are_apart, step};

use crate::tree::{Path, Step};
use crate::words::{dots_end, is_dots};
use marked_names::MarkedNames;
use name_table::NameTable;
use scheme_data::{Datum, OutOfMemory};
use sqlite_items::Items;
use std::alloc::Global;

/// The names of a pattern, and the way to what stands for each.
#[derive(Drop)]
pub(crate) struct Names {
    pub alloc: Global,
    pub table: MarkedNames,
    pub paths: Items<Path>,
}

impl Names {
    /// No names.
    pub fn new(alloc: Global) -> Names
        ensures table { result.table ≡ [] }
        ensures paths { result.paths ≡ [] }
    {
        Names {
            alloc,
            table: MarkedNames::new(alloc),
            paths: Items::new(alloc),
        }
    }

    /// Adds the names in a pattern at the end of a path, and says whether each is new.
    #[cycle(adding)]
    fn add(&mut self, literals: &NameTable, path: &[Step], d: &Datum) -> Result<bool, OutOfMemory>
        ensures apart { IfOk result (λ b. b ≡ are_apart self.old.table (names_of literals.now (form d.now))) }
        ensures names { IfOk result (λ b. IsTrue b → self.new.table ≡ self.old.table ++ names_of literals.now (form d.now)) }
        ensures paths { IfOk result (λ b. IsTrue b → self.new.paths ≡ self.old.paths ++ paths_of literals.now path.now (form d.now)) }
    {
        match d {
            Datum::Sym(_, name, mark) => {
                if is_dots(d) || literals.contains(name.as_bytes()) {
                    return Ok(true);
                }
                self.add_name(name.as_bytes(), *mark, path)
            }
            Datum::List(_, ds) => self.add_all(literals, path, 0, ds.as_slice()),
            _ => Ok(true),
        }
    }

    /// Adds a name, and says whether it is new.
    fn add_name(&mut self, name: &[u8], mark: u32, path: &[Step]) -> Result<bool, OutOfMemory>
        ensures apart { IfOk result (λ b. b ≡ not (has_marked self.old.table name.now mark)) }
        ensures names { IfOk result (λ b. IsTrue b → self.new.table ≡ self.old.table ++ (name.now, mark) ∷ []) }
        ensures paths { IfOk result (λ b. IsTrue b → self.new.paths ≡ self.old.paths ++ path.now ∷ []) }
    {
        if !self.table.insert(name, mark)? {
            return Ok(false);
        }
        self.paths.push(Items::from_slice(self.alloc, path)?)?;
        Ok(true)
    }

    /// Adds the names of a list's elements from a place on, and says whether each is new.
    #[cycle(adding)]
    pub fn add_all(
        &mut self,
        literals: &NameTable,
        path: &[Step],
        first: usize,
        ds: &[Datum],
    ) -> Result<bool, OutOfMemory>
        requires { first ≤ length ds.now }
        ensures apart { IfOk result (λ b. b ≡ are_apart self.old.table (names_in literals.now (forms (map form (drop first ds.now))))) }
        ensures names { IfOk result (λ b. IsTrue b → self.new.table ≡ self.old.table ++ names_in literals.now (forms (map form (drop first ds.now)))) }
        ensures paths { IfOk result (λ b. IsTrue b → self.new.paths ≡ self.old.paths ++ paths_in literals.now path.now first (forms (map form (drop first ds.now)))) }
    {
        for i in first..ds.len() {
            let mut inner = Items::from_slice(self.alloc, path)?;
            inner.push(step(dots_end(ds, i), i))?;
            if !self.add(literals, inner.as_slice(), &ds[i])? {
                return Ok(false);
            }
        }
        Ok(true)
    }
}

/// The step to an element, or to those that repeat from it on.
fn step(repeats: bool, i: usize) -> Step
    ensures { result ≡ step repeats i }
{
    if repeats { Step::Row(i) } else { Step::Item(i) }
}
