ghost use Rattle.std.specs.Prelude.{◌≡◌, ℕ, ◌+◌, ◌-◌, ◌*◌, ◌/◌, ◌%◌, ◌^◌, ◌<◌, ◌≤◌, [], length, take, drop, slice_get, slice_index, slice_set, OnOk, OnErr};
ghost use Rattle.std.specs.Option.{option_copied};
ghost use Rattle.word_region.specs.Regions.{HasWord, zeros};
ghost use Rattle.word_region.specs.Layout.{AreFull};

use crate::segments::Segment;
use scheme_data::OutOfMemory;
use std::alloc::Global;
use std::marker::Model;

/// Words in segments of 65,536, one after another. It grows by whole segments, and copies no word.
#[derive(Drop)]
pub struct Table {
    alloc: Global,
    segments: Vec<Segment>,
}

impl Model for Table {
    ghost use Rattle.std.specs.Prelude.{ℕ, List};
    ghost use Rattle.std.specs.List.{concat};
    ghost use Rattle.std.specs.Coded.{coded_list, coded_ℕ};
    ghost use Rattle.word_region.specs.Layout.{AreFull};

    ghost Value = { List ℕ };

    ghost coded = { coded_list coded_ℕ };

    ghost view = { λ t. concat t.segments.items };

    ghost invariant = { λ t. AreFull 65536 t.segments.items };
}

impl Table {
    /// The empty table, which takes no memory.
    pub fn new(alloc: Global) -> Table
        ensures { result ≡ [] }
    {
        Table {
            alloc,
            segments: Vec::new(alloc),
        }
    }

    /// How many segments it has.
    pub fn segment_count(&self) -> u64
        ensures { 65536 * result ≡ length self.now }
    {
        self.segments.len() as u64
    }

    /// The word at a place.
    #[inline]
    pub fn get(&self, at: u64) -> u64
        requires { at < length self.now }
        ensures { result ≡ slice_index self.now at }
    {
        self.segments[(at / 65_536) as usize].get(at % 65_536)
    }

    /// Changes the word at a place.
    #[inline]
    pub fn set(&mut self, at: u64, word: u64)
        requires { at < length self.old }
        ensures { self.new ≡ slice_set self.old at word }
    {
        self.segments[(at / 65_536) as usize].set(at % 65_536, word);
    }

    /// Sets so many words to 0, from a place on.
    pub fn clear(&mut self, from: u64, count: u64)
        requires room { from + count ≤ length self.old }
        requires fits { from + count < 2 ^ 64 }
        ensures len { length self.new ≡ length self.old }
        ensures before { take from self.new ≡ take from self.old }
        ensures cleared { drop from (take (from + count) self.new) ≡ zeros count }
    {
        for k in 0..count {
            self.set(from + k, 0);
        }
    }

    /// The segment at a place; none only past the last one.
    pub fn segment(&self, k: u64) -> Option<&Segment>
        ensures { (at : ℕ) → at < length self.now → at / 65536 ≡ k → HasWord (option_copied result) (at % 65536) (slice_index self.now at) }
    {
        nth(&self.segments, k)
    }

    /// Adds so many segments, or, without memory for them, none: then nothing changes.
    pub fn grow(&mut self, more: u64) -> Result<(), OutOfMemory>
        ensures longer { OnOk result (length self.new ≡ length self.old + 65536 * more) }
        ensures kept { OnOk result (take (length self.old) self.new ≡ self.old) }
        ensures err { OnErr result (self.new ≡ self.old) }
    {
        let before = self.segments.len();
        let grown = add_segments(self.alloc, &mut self.segments, more);
        if grown.is_err() {
            self.segments.truncate(before);
        }
        grown
    }

    /// Keeps the first so many segments alone.
    pub fn cut(&mut self, segments: u64)
        ensures { self.new ≡ take (65536 * segments) self.old }
    {
        self.segments.truncate(segments as usize);
    }
}

// The segment at a place.
fn nth(segments: &Vec<Segment>, k: u64) -> Option<&Segment>
    ensures { option_copied result ≡ slice_get segments.now.items k }
{
    segments.get(k as usize)
}

// Adds so many segments at the end; without memory for all of them, as many as it can.
fn add_segments(alloc: Global, segments: &mut Vec<Segment>, more: u64) -> Result<(), OutOfMemory>
    requires { AreFull 65536 segments.old.items }
    ensures full { AreFull 65536 segments.new.items }
    ensures kept { take (length segments.old.items) segments.new.items ≡ segments.old.items }
    ensures longer { OnOk result (length segments.new.items ≡ length segments.old.items + more) }
{
    for _ in 0..more {
        segments.push(Segment::new(alloc)?)?;
    }
    Ok(())
}

/// Adds so many segments to both of two tables that are as long as each other, or changes neither.
pub fn grow_both(words: &mut Table, starts: &mut Table, more: u64) -> Result<(), OutOfMemory>
    requires { length words.old ≡ length starts.old }
    ensures longer { OnOk result (length words.new ≡ length words.old + 65536 * more) }
    ensures alike { length words.new ≡ length starts.new }
    ensures words_kept { take (length words.old) words.new ≡ words.old }
    ensures starts_kept { take (length starts.old) starts.new ≡ starts.old }
    ensures words_err { OnErr result (words.new ≡ words.old) }
    ensures starts_err { OnErr result (starts.new ≡ starts.old) }
{
    let before = words.segment_count();
    words.grow(more)?;
    let grown = starts.grow(more);
    if grown.is_err() {
        words.cut(before);
    }
    grown
}
