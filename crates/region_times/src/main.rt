//! Times pairs in a region of blocks beside pairs in a plain vector. It measures only where it is given the word
//! `measure`.
#![tactic(auto)]

ghost use Rattle.std.specs.Prelude.{◌≡◌, ◌*◌, ◌<◌, [], length, vec_len, OnOk};
ghost use Rattle.region_times.specs.Pairs.{HasPairs};

mod walks;

use std::alloc::Global;
use std::rt::Clock;
use std::time::{Duration, Instant};
use std::{env, io};
use walks::PAIRS;
use word_region::Region;

const ROUNDS: u64 = 7;

// The least time of some rounds, since others may use the machine, and since the first round also brings the memory in;
// and the sum of what they gave, so that no work is left out.
#[derive(Drop)]
struct Rounds {
    least: Duration,
    gave: u64,
}

impl Rounds {
    fn new() -> Rounds {
        Rounds {
            least: Duration::MAX,
            gave: 0,
        }
    }

    fn add(&mut self, time: Duration, gave: u64) {
        if time < self.least {
            self.least = time;
        }
        self.gave = self.gave.wrapping_add(gave);
    }
}

fn nanoseconds_a_thousand(time: Duration, operations: u64) -> u128
    requires { 0 < operations }
{
    time.as_nanos() * 1000 / operations as u128
}

fn hundredths(time: Duration, of: Duration) -> u128 {
    time.as_nanos() * 100 / of.as_nanos().max(1)
}

// Prints the times on each side, their ratio, and what was given.
fn report(
    rt: &impl Print,
    what: &str,
    operations: u64,
    region: &Rounds,
    plain: &Rounds,
) -> io::Result<()>
    requires { 0 < operations }
{
    let times = (
        nanoseconds_a_thousand(region.least, operations),
        nanoseconds_a_thousand(plain.least, operations),
    );
    let ratio = hundredths(region.least, plain.least);
    println!(rt;
        "{what}: {} and {} ns a thousand, ratio {ratio} hundredths, gave {} and {}",
        times.0, times.1, region.gave, plain.gave
    )
}

// Makes the pairs on both sides once, and takes them away again.
fn alloc_round<R: Clock>(
    rt: &R,
    region: &mut Region,
    words: &mut Vec<u64>,
    allocs: &mut Rounds,
    pushes: &mut Rounds,
) -> io::Result<()>
    requires blocks { region.old.blocks ≡ [] }
    requires words { vec_len words.old ≡ 0 }
    ensures blocks { OnOk result (region.new.blocks ≡ []) }
    ensures words { OnOk result (vec_len words.new ≡ 0) }
{
    let none = region.mark();
    let start = Instant::now(rt)?;
    let made = walks::make_pairs(region).is_ok();
    allocs.add(start.elapsed(rt)?, made as u64);
    let start = Instant::now(rt)?;
    let made = walks::push_pairs(words).is_ok();
    pushes.add(start.elapsed(rt)?, made as u64);
    region.release(none);
    words.clear();
    Ok(())
}

fn measure_allocs<R: Print + Clock>(
    rt: &R,
    region: &mut Region,
    words: &mut Vec<u64>,
) -> io::Result<()>
    requires blocks { region.old.blocks ≡ [] }
    requires words { vec_len words.old ≡ 0 }
    ensures blocks { OnOk result (region.new.blocks ≡ []) }
    ensures words { OnOk result (vec_len words.new ≡ 0) }
{
    let (mut allocs, mut pushes) = (Rounds::new(), Rounds::new());
    for _ in 0..ROUNDS {
        alloc_round(rt, region, words, &mut allocs, &mut pushes)?;
    }
    report(
        rt,
        "alloc of a pair beside three pushes",
        PAIRS,
        &allocs,
        &pushes,
    )
}

fn measure_in_order<R: Print + Clock>(
    rt: &R,
    region: &mut Region,
    words: &mut [u64],
) -> io::Result<()>
    requires pairs { HasPairs PAIRS region.old.blocks }
    requires words { length words.old ≡ 3 * PAIRS }
    ensures { HasPairs PAIRS region.new.blocks }
{
    let (mut sets, mut stores) = (Rounds::new(), Rounds::new());
    let (mut gets, mut indexes) = (Rounds::new(), Rounds::new());
    for round in 0..ROUNDS {
        let start = Instant::now(rt)?;
        walks::set_in_order(region, round);
        sets.add(start.elapsed(rt)?, round);
        let start = Instant::now(rt)?;
        walks::store_in_order(words, round);
        stores.add(start.elapsed(rt)?, round);
        let start = Instant::now(rt)?;
        let sum = walks::get_in_order(region);
        gets.add(start.elapsed(rt)?, sum);
        let start = Instant::now(rt)?;
        let sum = walks::index_in_order(words);
        indexes.add(start.elapsed(rt)?, sum);
    }
    report(
        rt,
        "get in order beside an index",
        2 * PAIRS,
        &gets,
        &indexes,
    )?;
    report(rt, "set in order beside a store", 2 * PAIRS, &sets, &stores)
}

fn measure_scattered<R: Print + Clock>(
    rt: &R,
    region: &mut Region,
    words: &mut [u64],
) -> io::Result<()>
    requires pairs { HasPairs PAIRS region.old.blocks }
    requires words { length words.old ≡ 3 * PAIRS }
{
    let (mut sets, mut stores) = (Rounds::new(), Rounds::new());
    let (mut gets, mut indexes) = (Rounds::new(), Rounds::new());
    for round in 0..ROUNDS {
        let start = Instant::now(rt)?;
        walks::set_scattered(region, round);
        sets.add(start.elapsed(rt)?, round);
        let start = Instant::now(rt)?;
        walks::store_scattered(words, round);
        stores.add(start.elapsed(rt)?, round);
        let start = Instant::now(rt)?;
        let sum = walks::get_scattered(region);
        gets.add(start.elapsed(rt)?, sum);
        let start = Instant::now(rt)?;
        let sum = walks::index_scattered(words);
        indexes.add(start.elapsed(rt)?, sum);
    }
    report(
        rt,
        "get scattered beside an index",
        2 * PAIRS,
        &gets,
        &indexes,
    )?;
    report(
        rt,
        "set scattered beside a store",
        2 * PAIRS,
        &sets,
        &stores,
    )
}

fn measure<R: Print + Clock>(rt: &R, alloc: Global) -> io::Result<()> {
    let mut region = Region::new(alloc);
    let mut words = Vec::with_capacity(alloc, 3 * PAIRS as usize)?;
    if region.reserve(3 * PAIRS).is_err() {
        return rt.println("memory");
    }
    measure_allocs(rt, &mut region, &mut words)?;
    let (Ok(()), Ok(())) = (
        walks::make_pairs(&mut region),
        walks::push_pairs(&mut words),
    ) else {
        return rt.println("memory");
    };
    let words = words.as_mut_slice();
    measure_in_order(rt, &mut region, words)?;
    measure_scattered(rt, &mut region, words)
}

fn main(rt: HostRuntime) -> io::Result<()> {
    let mut args = env::args(&rt)?;
    let _ = args.next();
    if let Some(word) = args.next() {
        if word.as_str() == "measure" {
            return measure(&rt, rt.alloc());
        }
    }
    rt.println("give the word measure")
}
