ghost use Rattle.std.specs.Prelude.{◌≡◌, ◌+◌, ◌++◌, ◌<◌, [], ◌∷◌, map, IfOk, MatchOption};
ghost use Rattle.scheme_data.specs.Forms.{form, forms, form_place, form_size, forms_size, listed};
ghost use Rattle.syntax_rules.specs.Filling.{agrees, all_agree, in_all_rows, filled, all_filled, in_rows, part};
ghost use Rattle.syntax_rules.specs.Made.{Made, Leaves};
ghost use Rattle.syntax_rules.specs.Templates.{path_at};
ghost use Rattle.syntax_rules.specs.TreeViews.{the_template, templates};

use crate::error::RulesErr;
use crate::tree::Template;
use crate::usage::{Usage, within};
use scheme_data::{Datum, LimitKind, OutOfMemory};
use sqlite_items::Items;

/// How many data may still be made behind a datum; none where it has too many.
#[cycle(counting)]
fn without(left: u64, d: &Datum) -> Option<u64>
    ensures { MatchOption result (left < form_size (form d.now)) (λ rest. left ≡ form_size (form d.now) + rest) }
{
    let left = left.checked_sub(1)?;
    match d {
        Datum::List(_, ds) => without_all(left, ds.as_slice()),
        Datum::Dotted(_, ds, tail) => without(without_all(left, ds.as_slice())?, tail.get()),
        Datum::Vector(_, ds) => without_all(left, ds.as_slice()),
        _ => Some(left),
    }
}

/// How many data may still be made behind these; none where they have too many.
#[cycle(counting)]
fn without_all(left: u64, ds: &[Datum]) -> Option<u64>
    ensures { MatchOption result (left < forms_size (forms (map form ds.now))) (λ rest. left ≡ forms_size (forms (map form ds.now)) + rest) }
{
    let mut left = left;
    for d in ds {
        left = without(left, d)?;
    }
    Some(left)
}

/// How many data may still be made behind one.
fn without_one(left: u64) -> Result<u64, RulesErr>
    ensures { Leaves 1 left result }
{
    match left.checked_sub(1) {
        Some(left) => Ok(left),
        None => Err(RulesErr::Limit(LimitKind::Filled)),
    }
}

impl<'a> Usage<'a> {
    /// Whether elements that repeat in step repeat equally often.
    #[cycle(agreeing)]
    pub fn agrees(&self, t: &Template, rows: &[usize]) -> Result<bool, OutOfMemory>
        ensures { IfOk result (λ b. b ≡ agrees self.now.paths.now (form self.now.call.now) rows.now (the_template t.now)) }
    {
        match t {
            Template::Given(_) => Ok(true),
            Template::Fresh(_) => Ok(true),
            Template::Constant(_) => Ok(true),
            Template::Compound(ts) => self.all_agree(ts.as_slice(), rows),
            Template::Repeated(numbers, t) => {
                let times = self.times(numbers.as_slice(), rows);
                if !self.all_repeat(times, numbers.as_slice(), rows) {
                    return Ok(false);
                }
                self.rows_agree(times, t.get(), rows)
            }
        }
    }

    #[cycle(agreeing)]
    fn all_agree(&self, ts: &[Template], rows: &[usize]) -> Result<bool, OutOfMemory>
        ensures { IfOk result (λ b. b ≡ all_agree self.now.paths.now (form self.now.call.now) rows.now (templates (map the_template ts.now))) }
    {
        for t in ts {
            if !self.agrees(t, rows)? {
                return Ok(false);
            }
        }
        Ok(true)
    }

    #[cycle(agreeing)]
    fn rows_agree(&self, times: usize, t: &Template, rows: &[usize]) -> Result<bool, OutOfMemory>
        ensures { IfOk result (λ b. b ≡ in_all_rows times (λ r. agrees self.now.paths.now (form self.now.call.now) (rows.now ++ r ∷ []) (the_template t.now))) }
    {
        for row in 0..times {
            let inner = within(self.alloc, rows, row)?;
            if !self.agrees(t, inner.as_slice())? {
                return Ok(false);
            }
        }
        Ok(true)
    }

    /// Adds the data that a template gives in these rows, while they are no more than may be, and says how many may still be made.
    #[cycle(filling)]
    pub fn fill(
        &self,
        t: &Template,
        rows: &[usize],
        left: u64,
        made: &mut Items<Datum>,
    ) -> Result<u64, RulesErr>
        ensures { Made (filled self.now.paths.now (form self.now.call.now) (form_place (form self.now.call.now)) self.now.mark rows.now (the_template t.now)) left made.old made.new result }
    {
        match t {
            Template::Given(number) => self.fill_given(*number, rows, left, made),
            Template::Fresh(name) => {
                let left = without_one(left)?;
                made.push(Datum::Sym(self.call.place(), name.copy(self.alloc)?, self.mark))?;
                Ok(left)
            }
            Template::Constant(constant) => {
                let left = without_one(left)?;
                made.push(constant.datum(self.alloc, self.call.place())?)?;
                Ok(left)
            }
            Template::Compound(ts) => self.fill_list(ts.as_slice(), rows, left, made),
            Template::Repeated(numbers, t) => {
                let times = self.times(numbers.as_slice(), rows);
                self.fill_rows(times, t.get(), rows, left, made)
            }
        }
    }

    /// Adds a copy of what stands for a name.
    fn fill_given(
        &self,
        number: usize,
        rows: &[usize],
        left: u64,
        made: &mut Items<Datum>,
    ) -> Result<u64, RulesErr>
        ensures { Made (part (form self.now.call.now) (path_at self.now.paths.now number) rows.now ∷ []) left made.old made.new result }
    {
        let d = self.part(number, rows);
        let Some(left) = without(left, d) else {
            return Err(RulesErr::Limit(LimitKind::Filled));
        };
        made.push(d.copy(self.alloc)?)?;
        Ok(left)
    }

    #[cycle(filling)]
    fn fill_list(
        &self,
        ts: &[Template],
        rows: &[usize],
        left: u64,
        made: &mut Items<Datum>,
    ) -> Result<u64, RulesErr>
        ensures { Made (listed (form_place (form self.now.call.now)) (forms (all_filled self.now.paths.now (form self.now.call.now) (form_place (form self.now.call.now)) self.now.mark rows.now (templates (map the_template ts.now)))) ∷ []) left made.old made.new result }
    {
        let left = without_one(left)?;
        let mut parts = Items::new(self.alloc);
        let left = self.fill_all(ts, rows, left, &mut parts)?;
        made.push(Datum::List(self.call.place(), parts))?;
        Ok(left)
    }

    #[cycle(filling)]
    fn fill_all(
        &self,
        ts: &[Template],
        rows: &[usize],
        left: u64,
        made: &mut Items<Datum>,
    ) -> Result<u64, RulesErr>
        ensures { Made (all_filled self.now.paths.now (form self.now.call.now) (form_place (form self.now.call.now)) self.now.mark rows.now (templates (map the_template ts.now))) left made.old made.new result }
    {
        let mut left = left;
        for t in ts {
            left = self.fill(t, rows, left, made)?;
        }
        Ok(left)
    }

    #[cycle(filling)]
    fn fill_rows(
        &self,
        times: usize,
        t: &Template,
        rows: &[usize],
        left: u64,
        made: &mut Items<Datum>,
    ) -> Result<u64, RulesErr>
        ensures { Made (in_rows times (λ r. filled self.now.paths.now (form self.now.call.now) (form_place (form self.now.call.now)) self.now.mark (rows.now ++ r ∷ []) (the_template t.now))) left made.old made.new result }
    {
        let mut left = left;
        for row in 0..times {
            let inner = within(self.alloc, rows, row)?;
            left = self.fill(t, inner.as_slice(), left, made)?;
        }
        Ok(left)
    }
}
