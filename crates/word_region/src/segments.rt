ghost use Rattle.std.specs.Prelude.{◌≡◌, ◌<◌, length, IfOk, slice_index, slice_set};

use scheme_data::OutOfMemory;
use std::alloc::Global;
use std::marker::Model;

/// 65,536 words.
#[derive(Drop)]
pub struct Segment {
    words: Vec<u64>,
}

impl Model for Segment {
    ghost use Rattle.std.specs.Prelude.{◌≡◌, ℕ, List, length};
    ghost use Rattle.std.specs.Coded.{coded_list, coded_ℕ};

    ghost Value = { List ℕ };

    ghost coded = { coded_list coded_ℕ };

    ghost view = { λ s. s.words.items };

    ghost invariant = { λ s. length s.words.items ≡ 65536 };
}

impl Segment {
    /// A segment of its own; `OutOfMemory` only for want of memory.
    pub(crate) fn new(alloc: Global) -> Result<Segment, OutOfMemory>
        ensures { IfOk result (λ s. length s ≡ 65536) }
    {
        let words = filled(alloc, 65_536)?;
        Ok(Segment { words })
    }

    /// Its words, in order.
    pub fn words(&self) -> &[u64]
        ensures value { result.now ≡ self.now }
        ensures len { length self.now ≡ 65536 }
    {
        self.words.as_slice()
    }

    /// The word at a place.
    #[inline]
    pub(crate) fn get(&self, at: u64) -> u64
        requires { at < 65536 }
        ensures { result ≡ slice_index self.now at }
    {
        self.words[at as usize]
    }

    /// Changes the word at a place.
    #[inline]
    pub(crate) fn set(&mut self, at: u64, word: u64)
        requires { at < 65536 }
        ensures { self.new ≡ slice_set self.old at word }
    {
        self.words[at as usize] = word;
    }
}

// So many words.
fn filled(alloc: Global, count: usize) -> Result<Vec<u64>, OutOfMemory>
    ensures { IfOk result (λ words. length words.items ≡ count) }
{
    Ok(vec![in alloc; 0u64; count]?)
}
