ghost use Rattle.std.specs.Prelude.{◌≡◌, ◌*◌, ◌<◌, [], length, vec_len, OnOk};
ghost use Rattle.region_times.specs.Pairs.{HasPairs};

use scheme_data::OutOfMemory;
use word_region::{Addr, Region};

/// How many pairs there are.
pub const PAIRS: u64 = 1 << 22;

// Odd, so that its multiples pass every pair once.
const STEP: u64 = 1_234_577;

// The pair that a scattered walk comes to after so many others, far from the one before.
#[inline]
fn scattered(k: u64) -> u64
    ensures { result < PAIRS }
{
    k.wrapping_mul(STEP) & (PAIRS - 1)
}

/// Makes the pairs.
#[inline(never)]
pub fn make_pairs(region: &mut Region) -> Result<(), OutOfMemory>
    requires { region.old.blocks ≡ [] }
    ensures { OnOk result (HasPairs PAIRS region.new.blocks) }
{
    for _ in 0..PAIRS {
        region.alloc(2)?;
    }
    Ok(())
}

/// Makes the pairs in a vector, a header before the words of each.
#[inline(never)]
pub fn push_pairs(words: &mut Vec<u64>) -> Result<(), OutOfMemory>
    requires { vec_len words.old ≡ 0 }
    ensures { OnOk result (vec_len words.new ≡ 3 * PAIRS) }
{
    for _ in 0..PAIRS {
        words.push(2)?;
        words.push(0)?;
        words.push(0)?;
    }
    Ok(())
}

// The sum of the words of a pair.
#[inline]
fn get_pair(region: &Region, pair: u64) -> u64
    requires pairs { HasPairs PAIRS region.now.blocks }
    requires live { pair < PAIRS }
{
    let pair = Addr(pair);
    let first = region.get(pair, 0);
    first.wrapping_add(region.get(pair, 1))
}

#[inline]
fn index_pair(words: &[u64], pair: u64) -> u64
    requires pairs { length words.now ≡ 3 * PAIRS }
    requires live { pair < PAIRS }
{
    let header = 3 * pair as usize;
    let first = words[header + 1];
    first.wrapping_add(words[header + 2])
}

// Changes the words of a pair.
#[inline]
fn set_pair(region: &mut Region, pair: u64, first: u64, second: u64)
    requires pairs { HasPairs PAIRS region.old.blocks }
    requires live { pair < PAIRS }
    ensures { HasPairs PAIRS region.new.blocks }
{
    let pair = Addr(pair);
    region.set(pair, 0, first);
    region.set(pair, 1, second);
}

#[inline]
fn store_pair(words: &mut [u64], pair: u64, first: u64, second: u64)
    requires pairs { length words.old ≡ 3 * PAIRS }
    requires live { pair < PAIRS }
{
    let header = 3 * pair as usize;
    words[header + 1] = first;
    words[header + 2] = second;
}

/// Reads the pairs in order.
#[inline(never)]
pub fn get_in_order(region: &Region) -> u64
    requires { HasPairs PAIRS region.now.blocks }
{
    let mut sum = 0u64;
    for k in 0..PAIRS {
        sum = sum.wrapping_add(get_pair(region, k));
    }
    sum
}

/// Reads the pairs of a vector in order.
#[inline(never)]
pub fn index_in_order(words: &[u64]) -> u64
    requires { length words.now ≡ 3 * PAIRS }
{
    let mut sum = 0u64;
    for k in 0..PAIRS {
        sum = sum.wrapping_add(index_pair(words, k));
    }
    sum
}

/// Reads the pairs in a scattered order.
#[inline(never)]
pub fn get_scattered(region: &Region) -> u64
    requires { HasPairs PAIRS region.now.blocks }
{
    let mut sum = 0u64;
    for k in 0..PAIRS {
        sum = sum.wrapping_add(get_pair(region, scattered(k)));
    }
    sum
}

/// Reads the pairs of a vector in a scattered order.
#[inline(never)]
pub fn index_scattered(words: &[u64]) -> u64
    requires { length words.now ≡ 3 * PAIRS }
{
    let mut sum = 0u64;
    for k in 0..PAIRS {
        sum = sum.wrapping_add(index_pair(words, scattered(k)));
    }
    sum
}

/// Changes the pairs in order.
#[inline(never)]
pub fn set_in_order(region: &mut Region, word: u64)
    requires { HasPairs PAIRS region.old.blocks }
    ensures { HasPairs PAIRS region.new.blocks }
{
    for k in 0..PAIRS {
        set_pair(region, k, k, word);
    }
}

/// Changes the pairs of a vector in order.
#[inline(never)]
pub fn store_in_order(words: &mut [u64], word: u64)
    requires { length words.old ≡ 3 * PAIRS }
{
    for k in 0..PAIRS {
        store_pair(words, k, k, word);
    }
}

/// Changes the pairs in a scattered order.
#[inline(never)]
pub fn set_scattered(region: &mut Region, word: u64)
    requires { HasPairs PAIRS region.old.blocks }
    ensures { HasPairs PAIRS region.new.blocks }
{
    for k in 0..PAIRS {
        set_pair(region, scattered(k), k, word);
    }
}

/// Changes the pairs of a vector in a scattered order.
#[inline(never)]
pub fn store_scattered(words: &mut [u64], word: u64)
    requires { length words.old ≡ 3 * PAIRS }
{
    for k in 0..PAIRS {
        store_pair(words, scattered(k), k, word);
    }
}
