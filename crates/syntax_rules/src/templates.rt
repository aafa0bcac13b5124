ghost use Rattle.std.specs.Prelude.{◌≡◌, ◌++◌, false, length, map, IfOk, OnOk};
ghost use Rattle.scheme_data.specs.Forms.{form, forms};
ghost use Rattle.marked_names.specs.MarkedNames.{marked_place};
ghost use Rattle.syntax_rules.specs.Templates.{numbers_of, numbers_in, template_of, templates_of, as_compound, as_element, as_symbol, under};
ghost use Rattle.syntax_rules.specs.TreeViews.{template_if};

use crate::names::Names;
use crate::tree::{Constant, Template, depth_of, path_at};
use crate::words::{dots_follow, is_dots};
use scheme_data::{Datum, OutOfMemory, Text};
use sqlite_items::{Boxed, Items};

impl Names {
    /// Adds the numbers of the names in a template.
    #[cycle(numbering)]
    fn add_numbers(&self, d: &Datum, numbers: &mut Items<usize>) -> Result<(), OutOfMemory>
        ensures { OnOk result (numbers.new ≡ numbers.old ++ numbers_of self.now.table (form d.now)) }
    {
        match d {
            Datum::Sym(_, name, mark) => {
                if let Some(i) = self.table.position(name.as_bytes(), *mark)? {
                    numbers.push(i)?;
                }
                Ok(())
            }
            Datum::List(_, ds) => self.add_all_numbers(ds.as_slice(), numbers),
            _ => Ok(()),
        }
    }

    /// Adds the numbers of the names in templates.
    #[cycle(numbering)]
    fn add_all_numbers(&self, ds: &[Datum], numbers: &mut Items<usize>) -> Result<(), OutOfMemory>
        ensures { OnOk result (numbers.new ≡ numbers.old ++ numbers_in self.now.table (forms (map form ds.now))) }
    {
        for d in ds {
            self.add_numbers(d, numbers)?;
        }
        Ok(())
    }

    /// The template that a datum is under so many `...`, if it is one.
    #[cycle(templating)]
    pub fn template(&self, depth: usize, d: &Datum) -> Result<Option<Template>, OutOfMemory>
        ensures { IfOk result (λ o. template_if o ≡ template_of self.now.table self.now.paths depth (form d.now)) }
    {
        if let Some(constant) = Constant::of(self.alloc, d)? {
            return Ok(Some(Template::Constant(constant)));
        }
        match d {
            Datum::Sym(_, name, mark) => {
                if is_dots(d) {
                    return Ok(None);
                }
                self.symbol(depth, name, *mark)
            }
            Datum::List(_, ds) => self.list_template(depth, ds.as_slice()),
            _ => Ok(None),
        }
    }

    /// The template that a symbol other than `...` is: a name of the pattern stands under as many `...` as there.
    fn symbol(&self, depth: usize, name: &Text, mark: u32) -> Result<Option<Template>, OutOfMemory>
        ensures { IfOk result (λ o. template_if o ≡ as_symbol self.now.paths depth name.now (marked_place name.now mark self.now.table)) }
    {
        let Some(i) = self.table.position(name.as_bytes(), mark)? else {
            return Ok(Some(Template::Fresh(name.copy(self.alloc)?)));
        };
        if depth_of(path_at(self.paths.as_slice(), i)) != depth {
            return Ok(None);
        }
        Ok(Some(Template::Given(i)))
    }

    /// The template that a list of these is under so many `...`, if it is one.
    #[cycle(templating)]
    fn list_template(&self, depth: usize, ds: &[Datum]) -> Result<Option<Template>, OutOfMemory>
        ensures { IfOk result (λ o. template_if o ≡ as_compound (templates_of self.now.table self.now.paths depth false (forms (map form ds.now)))) }
    {
        let mut elements = Items::new(self.alloc);
        let mut dots_may_come = false;
        for i in 0..ds.len() {
            if is_dots(&ds[i]) {
                if !dots_may_come {
                    return Ok(None);
                }
                dots_may_come = false;
                continue;
            }
            let Some(t) = self.element(depth, dots_follow(ds, i), &ds[i])? else {
                return Ok(None);
            };
            elements.push(t)?;
            dots_may_come = true;
        }
        Ok(Some(Template::Compound(elements)))
    }

    /// The template that an element is, which repeats where `...` follows: then it has to hold a name of the pattern.
    #[cycle(templating)]
    fn element(
        &self,
        depth: usize,
        repeats: bool,
        d: &Datum,
    ) -> Result<Option<Template>, OutOfMemory>
        ensures { IfOk result (λ o. template_if o ≡ as_element repeats (numbers_of self.now.table (form d.now)) (template_of self.now.table self.now.paths (under repeats depth) (form d.now))) }
    {
        if !repeats {
            return self.template(depth, d);
        }
        let Some(inner) = depth.checked_add(1) else {
            return Err(OutOfMemory);
        };
        let Some(t) = self.template(inner, d)? else {
            return Ok(None);
        };
        let mut numbers = Items::new(self.alloc);
        self.add_numbers(d, &mut numbers)?;
        if numbers.is_empty() {
            return Ok(None);
        }
        Ok(Some(Template::Repeated(numbers, Boxed::new(self.alloc, t)?)))
    }
}
