ghost use Rattle.std.specs.Prelude.{◌≡◌, ◌+◌, ◌++◌, ◌∷◌, [], IfOk};
ghost use Rattle.scheme_data.specs.Forms.{form};
ghost use Rattle.syntax_rules.specs.Filling.{element, length_of, part, width, times, all_times};
ghost use Rattle.syntax_rules.specs.Templates.{path_at};

use crate::tree::{Path, Step, path_at};
use scheme_data::{Datum, OutOfMemory};
use sqlite_items::Items;
use std::alloc::Global;

/// A use of a macro that a pattern matches, with the ways to what stands for the names of the pattern.
#[derive(Clone, Copy)]
pub(crate) struct Usage<'a> {
    pub alloc: Global,
    pub call: &'a Datum,
    pub paths: &'a [Path],
    pub mark: u32,
}

impl<'a> Usage<'a> {
    /// What stands for a name in these rows.
    pub fn part(&self, number: usize, rows: &[usize]) -> &'a Datum
        ensures { form result.now ≡ part (form self.now.call.now) (path_at self.now.paths.now number) rows.now }
    {
        part(self.call, path_at(self.paths, number), rows)
    }

    /// How often the repetition of a name within these rows repeats.
    fn width(&self, number: usize, rows: &[usize]) -> usize
        ensures { result ≡ width (form self.now.call.now) (path_at self.now.paths.now number) rows.now }
    {
        width(self.call, path_at(self.paths, number), rows)
    }

    /// How often an element with these names repeats.
    pub fn times(&self, numbers: &[usize], rows: &[usize]) -> usize
        ensures { result ≡ times self.now.paths.now (form self.now.call.now) rows.now numbers.now }
    {
        match numbers.first() {
            Some(number) => self.width(*number, rows),
            None => 0,
        }
    }

    /// Whether the repetitions of these names repeat so often.
    pub fn all_repeat(&self, times: usize, numbers: &[usize], rows: &[usize]) -> bool
        ensures { result ≡ all_times self.now.paths.now (form self.now.call.now) times rows.now numbers.now }
    {
        for number in numbers {
            if self.width(*number, rows) != times {
                return false;
            }
        }
        true
    }
}

/// The rows, and within them another.
pub(crate) fn within(alloc: Global, rows: &[usize], row: usize) -> Result<Items<usize>, OutOfMemory>
    ensures { IfOk result (λ more. more ≡ rows.now ++ row ∷ []) }
{
    let mut more = Items::from_slice(alloc, rows)?;
    more.push(row)?;
    Ok(more)
}

/// An element of a list, or the datum itself where there is none.
fn element(d: &Datum, i: usize) -> &Datum
    ensures { form result.now ≡ element (form d.now) i }
{
    match d {
        Datum::List(_, ds) => match ds.get(i) {
            Some(found) => found,
            None => d,
        },
        _ => d,
    }
}

/// An element of a list behind another, or the datum itself where there is none.
fn element_behind(d: &Datum, first: usize, i: usize) -> &Datum
    ensures { form result.now ≡ element (form d.now) (first + i) }
{
    if i < length_of(d).saturating_sub(first) {
        element(d, first + i)
    } else {
        d
    }
}

/// How many elements a list has.
fn length_of(d: &Datum) -> usize
    ensures { result ≡ length_of (form d.now) }
{
    match d {
        Datum::List(_, ds) => ds.len(),
        _ => 0,
    }
}

/// What stands at the end of a path. Its recursion is as deep as the pattern nests.
fn part<'a>(d: &'a Datum, path: &[Step], rows: &[usize]) -> &'a Datum
    ensures { form result.now ≡ part (form d.now) path.now rows.now }
{
    let Some((step, path)) = path.split_first() else {
        return d;
    };
    match *step {
        Step::Item(i) => part(element(d, i), path, rows),
        Step::Row(i) => match rows.split_first() {
            Some((row, rows)) => part(element_behind(d, i, *row), path, rows),
            None => d,
        },
    }
}

/// How often the first repetition on a path repeats that is in none of these rows.
fn width(d: &Datum, path: &[Step], rows: &[usize]) -> usize
    ensures { result ≡ width (form d.now) path.now rows.now }
{
    let Some((step, path)) = path.split_first() else {
        return 0;
    };
    match *step {
        Step::Item(i) => width(element(d, i), path, rows),
        Step::Row(i) => match rows.split_first() {
            Some((row, rows)) => width(element_behind(d, i, *row), path, rows),
            None => length_of(d).saturating_sub(i),
        },
    }
}
