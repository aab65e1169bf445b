//! An ordered map beside a sorted list, over the same changes.

use cat_ordered::change::Change;
use cat_ordered::ordered_map::OrderedMap;
use std::alloc::{AllocError, Global};

type Numbers = OrderedMap<u64, u64>;

/// Where a number stands in a list, or would stand.
fn place(list: &[(u64, u64)], n: u64) -> usize {
    list.partition_point(|pair| pair.0 < n)
}

/// Gives a number this value.
fn put(list: &mut Vec<(u64, u64)>, n: u64, value: u64) -> Result<(), AllocError> {
    take(list, n);
    let at = place(list.as_slice(), n);
    if at > list.len() {
        return Err(AllocError);
    }
    match list.insert(at, (n, value)) {
        Ok(()) => Ok(()),
        Err(_) => Err(AllocError),
    }
}

/// Takes a number away, if it is there.
fn take(list: &mut Vec<(u64, u64)>, n: u64) {
    let at = place(list.as_slice(), n);
    if at < list.len() && list[at].0 == n {
        list.remove(at);
    }
}

/// Whether a map has just what a list has.
fn is_same(map: &Numbers, list: &[(u64, u64)]) -> bool {
    let mut rest = map.walk();
    for pair in list {
        let Some(found) = rest.next() else {
            return false;
        };
        if *found.key() != pair.0 || *found.value() != pair.1 {
            return false;
        }
    }
    rest.next().is_none() && map.len() == list.len()
}

/// The next number of a row that looks random.
fn next(seed: u64) -> u64 {
    seed.wrapping_mul(6364136223846793005)
        .wrapping_add(1442695040888963407)
}

/// Whether a map of so many numbers stays as it is while a copy of it is changed.
fn stays(alloc: Global, count: u64) -> Result<bool, AllocError> {
    let mut map = OrderedMap::new(alloc);
    let mut list = Vec::new(alloc);
    for n in 0..count {
        put(&mut list, n, n)?;
        map = map.into_changes(alloc, &[Change::put(alloc, n, n)?])?;
    }
    let mut copy = map.clone()?;
    for n in 0..count {
        copy = copy.into_changes(alloc, &[Change::remove(alloc, n)?])?;
    }
    Ok(copy.is_empty() && is_same(&map, list.as_slice()))
}

/// Whether a map and a list are the same after so many changes of numbers below a bound, one in
/// four of which takes a number away.
fn agree(alloc: Global, below: u64, changes: u32) -> Result<bool, AllocError> {
    let mut map = OrderedMap::new(alloc);
    let mut list = Vec::new(alloc);
    let mut seed = below;
    for _ in 0..changes {
        seed = next(seed);
        let n = (seed >> 33) % below.max(1);
        let change = if (seed >> 20) % 4 == 0 {
            take(&mut list, n);
            Change::remove(alloc, n)?
        } else {
            put(&mut list, n, seed)?;
            Change::put(alloc, n, seed)?
        };
        map = if (seed >> 22) % 2 == 0 {
            map.with_changes(alloc, &[change])?
        } else {
            map.into_changes(alloc, &[change])?
        };
        if list.len() < 140 && !is_same(&map, list.as_slice()) {
            return Ok(false);
        }
    }
    Ok(is_same(&map, list.as_slice()))
}

#[test]
fn a_map_and_a_list_agree_at_each_size(rt: HostRuntime) {
    let alloc = rt.alloc();
    for below in [1, 15, 16, 17, 63, 64, 65, 128, 1023, 1024, 1025, 4096] {
        assert!(rt; agree(alloc, below, 3000) == Ok(true));
    }
    assert!(rt; agree(alloc, 100_000, 9000) == Ok(true));
}

#[test]
fn a_map_stays_while_a_copy_is_changed_in_its_own_memory(rt: HostRuntime) {
    let alloc = rt.alloc();
    for count in [1, 16, 33, 600, 2000] {
        assert!(rt; stays(alloc, count) == Ok(true));
    }
}
