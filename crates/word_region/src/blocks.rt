ghost use Rattle.std.specs.Prelude.{◌≡◌, ℕ, ◌+◌, ◌-◌, ◌*◌, ◌/◌, ◌%◌, ◌^◌, ◌<◌, ◌≤◌, [], ◌∷◌, ◌++◌, length, take, drop, IfOk, OnOk, OnErr, IsOk};
ghost use Rattle.std.specs.Option.{option_copied};
ghost use Rattle.word_region.specs.Regions.{HasWord, block_at, size_of, start_of, taken, whole_segments, with_word, word_at, zeros};
ghost use Rattle.word_region.specs.Layout.{end_of_first};

use crate::segments::Segment;
use crate::table::{Table, grow_both};
use scheme_data::OutOfMemory;
use std::alloc::Global;
use std::marker::Model;

/// A block, named by its place among the live blocks.
#[derive(Clone, Copy, Debug, PartialEq, Eq)]
pub struct Addr(pub u64);

/// How many blocks were live.
#[derive(Clone, Copy)]
pub struct Mark(pub(crate) u64);

/// Blocks of words, taken in order and given back from the end. All words stand one after another in segments, so a
/// block may run over several of them.
#[derive(Drop)]
pub struct Region {
    words: Table,
    starts: Table,
    live: u64,
    used: u64,
    spare: u64,
}

impl Model for Region {
    ghost use Rattle.word_region.specs.Regions.{Contents};
    ghost use Rattle.word_region.specs.Layout.{IsSound, blocks_of};

    ghost Value = { Contents };

    ghost view = { λ r. record { blocks = blocks_of r.words r.starts r.live r.used; spare = r.spare } };

    ghost invariant = { λ r. IsSound r.words r.starts r.live r.used r.spare };
}

impl Region {
    /// The region without blocks, which takes no memory.
    pub fn new(alloc: Global) -> Region
        ensures blocks { result.blocks ≡ [] }
        ensures spare { result.spare ≡ 0 }
    {
        Region {
            words: Table::new(alloc),
            starts: Table::new(alloc),
            live: 0,
            used: 0,
            spare: 0,
        }
    }

    /// Makes ready for so many words, one of which each block takes beside its own. `OutOfMemory` comes only for want of
    /// memory, or beyond 2^60 words in all, and changes nothing.
    pub fn reserve(&mut self, words: u64) -> Result<(), OutOfMemory>
        ensures enough { OnOk result (words ≤ self.new.spare) }
        ensures within { words ≤ self.old.spare → self.new ≡ self.old }
        ensures grown { OnOk result (self.old.spare < words → taken self.old.blocks + self.new.spare ≡ whole_segments (taken self.old.blocks + words)) }
        ensures blocks { self.new.blocks ≡ self.old.blocks }
        ensures not_lower { self.old.spare ≤ self.new.spare }
        ensures succeeds { words ≤ self.old.spare → IsOk result }
        ensures err { OnErr result (self.new ≡ self.old) }
        ensures bounded { taken self.new.blocks + self.new.spare < 2 ^ 60 }
    {
        if words <= self.spare {
            return Ok(());
        }
        let more = missing(self.used + self.live, words, self.words.segment_count())?;
        grow_both(&mut self.words, &mut self.starts, more)?;
        self.spare += 65_536 * more;
        Ok(())
    }

    /// Adds a block of so many zeros. `OutOfMemory` comes only where this takes more than is spare, for want of memory or
    /// beyond 2^60 words in all, and changes nothing.
    pub fn alloc(&mut self, size: u32) -> Result<Addr, OutOfMemory>
        ensures address { IfOk result (λ a. a.0 ≡ length self.old.blocks) }
        ensures blocks { OnOk result (self.new.blocks ≡ self.old.blocks ++ zeros size ∷ []) }
        ensures within { size + 1 ≤ self.old.spare → self.new.spare + (size + 1) ≡ self.old.spare }
        ensures grown { OnOk result (self.old.spare < size + 1 → taken self.new.blocks + self.new.spare ≡ whole_segments (taken self.new.blocks)) }
        ensures succeeds { size + 1 ≤ self.old.spare → IsOk result }
        ensures err { OnErr result (self.new ≡ self.old) }
        ensures bounded { taken self.new.blocks + self.new.spare < 2 ^ 60 }
    {
        self.reserve(size as u64 + 1)?;
        Ok(self.place(size))
    }

    // Puts a block into what is spare.
    fn place(&mut self, size: u32) -> Addr
        requires { size + 1 ≤ self.old.spare }
        ensures address { result.0 ≡ length self.old.blocks }
        ensures blocks { self.new.blocks ≡ self.old.blocks ++ zeros size ∷ [] }
        ensures spare { self.new.spare + (size + 1) ≡ self.old.spare }
        ensures bounded { taken self.new.blocks + self.new.spare < 2 ^ 60 }
    {
        let size = size as u64;
        let start = self.used;
        let address = Addr(self.live);
        self.words.clear(start, size);
        self.starts.set(self.live, start);
        self.used = start + size;
        self.live += 1;
        self.spare -= size + 1;
        address
    }

    /// The size of a block; none where no such block is live.
    pub fn size(&self, a: Addr) -> Option<u32>
        ensures { result ≡ size_of self.now.blocks a.0 }
    {
        if a.0 >= self.live {
            return None;
        }
        let end = end_of(&self.starts, self.live, self.used, a.0 + 1);
        Some((end - self.starts.get(a.0)) as u32)
    }

    /// A word of a live block.
    #[inline]
    pub fn get(&self, a: Addr, i: u32) -> u64
        requires live { a.0 < length self.now.blocks }
        requires within { i < length (block_at self.now.blocks a.0) }
        ensures { result ≡ word_at self.now.blocks a.0 i }
    {
        self.words.get(self.starts.get(a.0) + i as u64)
    }

    /// Changes a word of a live block.
    #[inline]
    pub fn set(&mut self, a: Addr, i: u32, w: u64)
        requires live { a.0 < length self.old.blocks }
        requires within { i < length (block_at self.old.blocks a.0) }
        ensures blocks { self.new.blocks ≡ with_word self.old.blocks a.0 i w }
        ensures spare { self.new.spare ≡ self.old.spare }
    {
        let at = self.starts.get(a.0) + i as u64;
        self.words.set(at, w);
    }

    /// How many blocks are live, to give back later ones together.
    pub fn mark(&self) -> Mark
        ensures count { result.0 ≡ length self.now.blocks }
        ensures bounded { taken self.now.blocks + self.now.spare < 2 ^ 60 }
    {
        Mark(self.live)
    }

    /// Gives back the blocks that came after a mark. Its segments stay.
    pub fn release(&mut self, m: Mark)
        requires { m.0 ≤ length self.old.blocks }
        ensures blocks { self.new.blocks ≡ take m.0 self.old.blocks }
        ensures spare { self.new.spare ≡ self.old.spare + taken (drop m.0 self.old.blocks) }
    {
        let used = end_of(&self.starts, self.live, self.used, m.0);
        self.spare += (self.used + self.live) - (used + m.0);
        self.used = used;
        self.live = m.0;
    }

    /// A segment of the words of all live blocks, one block after another; none only where no such word stands in it.
    pub fn segment(&self, k: u64) -> Option<&Segment>
        ensures { (b i : ℕ) → b < length self.now.blocks → i < length (block_at self.now.blocks b) → (start_of self.now.blocks b + i) / 65536 ≡ k → HasWord (option_copied result) ((start_of self.now.blocks b + i) % 65536) (word_at self.now.blocks b i) }
    {
        self.words.segment(k)
    }
}

// Where the first so many blocks end.
fn end_of(starts: &Table, live: u64, used: u64, count: u64) -> u64
    requires { live ≤ length starts.now }
    ensures { result ≡ end_of_first starts.now live used count }
{
    if count < live {
        starts.get(count)
    } else {
        used
    }
}

// How many segments have to be added, so that so many words fit beside those that are taken.
fn missing(taken: u64, words: u64, segments: u64) -> Result<u64, OutOfMemory>
    requires bounded { taken < 2 ^ 60 }
    requires wanted { 65536 * segments < taken + words }
    ensures whole { IfOk result (λ more. 65536 * segments + 65536 * more ≡ whole_segments (taken + words)) }
    ensures fits { IfOk result (λ more. 65536 * segments + 65536 * more < 2 ^ 60) }
{
    if words >= 1 << 60 {
        return Err(OutOfMemory);
    }
    let wanted = (taken + words + 65_535) / 65_536;
    if wanted >= 1 << 44 {
        return Err(OutOfMemory);
    }
    Ok(wanted - segments)
}
