use crate::{Addr, Region};
use scheme_data::OutOfMemory;

fn put(region: &mut Region, a: Addr, i: u32, word: u64) -> bool {
    match region.size(a) {
        Some(size) if i < size => {
            region.set(a, i, word);
            true
        }
        _ => false,
    }
}

fn word(region: &Region, a: Addr, i: u32) -> Option<u64> {
    match region.size(a) {
        Some(size) if i < size => Some(region.get(a, i)),
        _ => None,
    }
}

fn word_of_segment(region: &Region, k: u64, at: usize) -> Option<u64> {
    match region.segment(k) {
        Some(segment) => segment.words().get(at).copied(),
        None => None,
    }
}

#[test]
fn blocks_after_a_mark_are_given_back(rt: HostRuntime) -> Result<(), OutOfMemory> {
    let mut region = Region::new(rt.alloc());
    let first = region.alloc(2)?;
    assert!(rt; put(&mut region, first, 0, 5));
    assert!(rt; put(&mut region, first, 1, 6));
    let mark = region.mark();
    let second = region.alloc(3)?;
    assert_eq!(rt; second.0, 1);
    assert!(rt; put(&mut region, second, 2, 9));
    assert!(rt; !put(&mut region, second, 3, 9));
    assert!(rt; mark.0 <= region.mark().0);
    if mark.0 <= region.mark().0 {
        region.release(mark);
    }
    assert_eq!(rt; region.size(second), None);
    let third = region.alloc(1)?;
    assert_eq!(rt; third.0, 1);
    assert_eq!(rt; region.size(third), Some(1));
    assert_eq!(rt; word(&region, third, 0), Some(0));
    assert_eq!(rt; word(&region, first, 0), Some(5));
    assert_eq!(rt; word(&region, first, 1), Some(6));
    Ok(())
}

#[test]
fn a_block_runs_over_a_border(rt: HostRuntime) -> Result<(), OutOfMemory> {
    let mut region = Region::new(rt.alloc());
    let first = region.alloc(65_535)?;
    assert!(rt; put(&mut region, first, 65_534, 3));
    let second = region.alloc(4)?;
    for i in 0..4 {
        assert_eq!(rt; word(&region, second, i), Some(0));
    }
    assert!(rt; put(&mut region, second, 0, 7));
    assert!(rt; put(&mut region, second, 3, 9));
    assert_eq!(rt; word(&region, first, 65_534), Some(3));
    assert_eq!(rt; word_of_segment(&region, 0, 65_534), Some(3));
    assert_eq!(rt; word_of_segment(&region, 0, 65_535), Some(7));
    assert_eq!(rt; word_of_segment(&region, 1, 2), Some(9));
    Ok(())
}

#[test]
fn too_many_words_are_refused(rt: HostRuntime) -> Result<(), OutOfMemory> {
    let mut region = Region::new(rt.alloc());
    region.reserve(4)?;
    assert!(rt; region.reserve(1 << 60).is_err());
    assert!(rt; region.alloc(3).is_ok());
    Ok(())
}
