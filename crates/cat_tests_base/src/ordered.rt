//! The ordered map, through versions that share their parts.

use cat_ordered::change::Change;
use cat_ordered::ordered_map::OrderedMap;
use std::alloc::{AllocError, Global};

type Numbers = OrderedMap<u64, u64>;

/// The map after one change.
fn changed(alloc: Global, map: &Numbers, change: Change<u64, u64>) -> Result<Numbers, AllocError> {
    map.with_changes(alloc, [change].as_slice())
}

/// The numbers below 5,000, each with itself, put one by one in another order.
fn filled(alloc: Global) -> Result<Numbers, AllocError> {
    let mut map = OrderedMap::new(alloc);
    for i in 0..5000u64 {
        let n = i * 1009 % 5000;
        map = changed(alloc, &map, Change::put(alloc, n, n)?)?;
    }
    Ok(map)
}

/// A map without the even ones of these, taken away one by one in another order.
fn without_even(alloc: Global, map: &Numbers) -> Result<Numbers, AllocError> {
    let mut map = map.clone()?;
    for i in 0..2500u64 {
        let n = i * 1009 % 2500 * 2;
        map = changed(alloc, &map, Change::remove(alloc, n)?)?;
    }
    Ok(map)
}

/// Whether a walk from a number on gives so many, each so much above the one before and found by
/// itself, and no more.
fn walks(map: &Numbers, from: u16, step: u8, count: u16) -> bool {
    let mut walk = map.walk_from(&u64::from(from));
    for i in 0..u64::from(count) {
        let n = u64::from(from) + i * u64::from(step);
        match walk.next() {
            Some(pair) => {
                if *pair.key() != n || map.get(&n) != Some(pair.value()) {
                    return false;
                }
            }
            None => return false,
        }
    }
    walk.next().is_none()
}

/// The number at or after this one.
fn next(map: &Numbers, n: u64) -> Option<u64> {
    match map.first_at_or_after(&n) {
        Some(pair) => Some(*pair.key()),
        None => None,
    }
}

/// The numbers below 5,000, and the odd ones of them in a later version.
fn versions(alloc: Global) -> Result<(Numbers, Numbers), AllocError> {
    let all = filled(alloc)?;
    let odd = without_even(alloc, &all)?;
    Ok((all, odd))
}

fn has_all(map: &Numbers) -> bool {
    map.len() == 5000
        && walks(map, 0, 1, 5000)
        && walks(map, 4999, 1, 1)
        && walks(map, 5000, 1, 0)
        && next(map, 0) == Some(0)
        && next(map, 5000).is_none()
}

fn has_odd(map: &Numbers) -> bool {
    map.len() == 2500
        && walks(map, 1, 2, 2500)
        && next(map, 4998) == Some(4999)
        && next(map, 5000).is_none()
        && map.get(&4998).is_none()
}

#[test]
fn versions_of_an_ordered_map_stay_as_they_are(rt: HostRuntime) {
    let Ok((all, odd)) = versions(rt.alloc()) else {
        panic!(&rt; "there is memory");
    };
    let whole = has_all(&all);
    let half = has_odd(&odd);
    drop(all);
    drop(odd);
    assert!(&rt; whole);
    assert!(&rt; half);
}
