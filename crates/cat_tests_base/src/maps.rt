//! Tables and maps of a thousand records and more.

ghost use Rattle.std.specs.Prelude.{◌≡◌, [], ◌∷◌, IfOk};

use cat_codes::fault::NoMemory;
use cat_keymap::distinct::are_distinct;
use cat_keymap::key_map::KeyMap;
use cat_keymap::maps::Maps;
use cat_model::entry::{ContentKind, Entry};
use cat_model::op::Op;
use cat_names::hash::{ContentId, Hash};
use cat_names::key::ContentKey;
use cat_names::key_fault::KeyFault;
use cat_tables::batch::Batch;
use cat_tables::table::Table;
use std::alloc::Global;
use std::test::Fail;

/// The hash of a number's bytes.
fn hash(n: u64) -> Hash {
    Hash::of(n.to_be_bytes().as_slice())
}

/// The first thousand numbers under their hashes.
fn thousand(alloc: Global) -> Result<Batch<u64>, NoMemory> {
    let mut numbers = Batch::new(alloc);
    for n in 0..1000u64 {
        let hash = hash(n);
        if numbers.get(&hash).is_none() {
            numbers.reserve(1)?;
            numbers.push(hash, n);
        }
    }
    Ok(numbers)
}

/// A table of these numbers.
fn table_of(alloc: Global, numbers: Batch<u64>) -> Result<Table<u64>, NoMemory> {
    numbers.known();
    Table::new(alloc).with(alloc, numbers)
}

/// A value alone, under a hash.
fn one<V: Drop>(alloc: Global, hash: Hash, value: V) -> Result<Batch<V>, NoMemory>
    ensures { IfOk result (λ batch. batch.list ≡ (hash, value) ∷ []) }
{
    let mut batch = Batch::new(alloc);
    batch.reserve(1)?;
    batch.push(hash, value);
    Ok(batch)
}

/// The table with a number more, unless there is one of its hash.
fn with_number(table: &Table<u64>, alloc: Global, n: u64) -> Result<Table<u64>, NoMemory> {
    let hash = hash(n);
    if table.get(&hash).is_some() {
        return Ok(table.clone()?);
    }
    table.known();
    table.with(alloc, one(alloc, hash, n)?)
}

fn at(table: &Table<u64>, n: u64) -> Option<u64> {
    match table.get(&hash(n)) {
        Some(value) => Some(*value),
        None => None,
    }
}

/// Whether each number below `held` is found, and none from there up to 1,001.
fn holds(table: &Table<u64>, held: u64) -> bool {
    for n in 0..1002u64 {
        let wanted = if n < held { Some(n) } else { None };
        if at(table, n) != wanted {
            return false;
        }
    }
    table.len() as u64 == held
}

#[test]
fn a_table_with_more_numbers_leaves_the_one_before(rt: HostRuntime) -> Result<(), Fail> {
    let alloc = rt.alloc();
    let table = table_of(alloc, thousand(alloc)?)?;
    assert!(rt; holds(&table, 1000));
    let same = with_number(&table, alloc, 400)?;
    let more = with_number(&same, alloc, 1000)?;
    assert!(rt; holds(&same, 1000) && holds(&table, 1000));
    drop(table);
    drop(same);
    assert!(rt; holds(&more, 1001));
    Ok(())
}

/// The key of two elements, of which the second is a number.
fn key(alloc: Global, n: u64) -> Result<ContentKey, KeyFault> {
    match format!(in alloc; "a.{n}") {
        Ok(path) => ContentKey::parse_path(alloc, path.as_str()),
        Err(_) => Err(KeyFault::NoMemory),
    }
}

fn entry(n: u64) -> Entry {
    Entry {
        kind: ContentKind::IcebergTable,
        id: ContentId::from_pair(1, n),
        hash: hash(n),
    }
}

/// A PUT at the key of a number.
fn put(alloc: Global, n: u64, value: u64) -> Result<Op, Fail> {
    Ok(Op::Put {
        key: key(alloc, n)?,
        entry: entry(value),
        fresh: false,
    })
}

/// PUTs at the keys of the numbers below 2,000, in another order.
fn puts(alloc: Global) -> Result<Vec<Op>, Fail> {
    let mut ops = Vec::new(alloc);
    for i in 0..2000u64 {
        let n = i.wrapping_mul(1009) % 2000;
        ops.push(put(alloc, n, n)?)?;
    }
    Ok(ops)
}

/// A PUT of another value at one of those keys, and a DELETE at another.
fn others(alloc: Global) -> Result<Vec<Op>, Fail> {
    let mut ops = Vec::new(alloc);
    ops.push(put(alloc, 1998, 7)?)?;
    let key = key(alloc, 17)?;
    ops.push(Op::Delete { key })?;
    Ok(ops)
}

/// The map after operations, whose keys must be distinct.
fn applied(alloc: Global, map: &KeyMap, ops: &[Op]) -> Result<KeyMap, Fail> {
    if !are_distinct(alloc, ops)? {
        return Err(Fail::from("a key comes twice"));
    }
    Ok(map.apply(alloc, ops)?)
}

/// The map after those PUTs.
fn first(alloc: Global) -> Result<KeyMap, Fail> {
    let ops = puts(alloc)?;
    applied(alloc, &KeyMap::empty(), ops.as_slice())
}

/// A map after the others.
fn after_others(alloc: Global, map: &KeyMap) -> Result<KeyMap, Fail> {
    let ops = others(alloc)?;
    applied(alloc, map, ops.as_slice())
}

/// Whether a map has this at the key of a number.
fn has(alloc: Global, map: &KeyMap, n: u64, wanted: Option<u64>) -> bool {
    match key(alloc, n) {
        Ok(key) => map.get(&key) == wanted.map(|value| entry(value)),
        Err(_) => false,
    }
}

/// Whether a map has all the PUTs.
fn has_all(alloc: Global, map: &KeyMap) -> bool {
    for n in 0..2000u64 {
        if !has(alloc, map, n, Some(n)) {
            return false;
        }
    }
    map.len() == 2000
}

/// Whether maps differ at the keys of these two numbers alone, in this order.
fn differ_at(alloc: Global, first: &KeyMap, second: &KeyMap, wanted: [u64; 2]) -> bool {
    let (Ok(one), Ok(other)) = (key(alloc, wanted[0]), key(alloc, wanted[1])) else {
        return false;
    };
    match first.changed(alloc, second) {
        Ok(found) => found.as_slice() == [one, other].as_slice(),
        Err(_) => false,
    }
}

#[test]
fn two_thousand_operations_in_any_order_make_one_map(rt: HostRuntime) -> Result<(), Fail> {
    let alloc = rt.alloc();
    let first = first(alloc)?;
    let second = after_others(alloc, &first)?;
    assert!(rt; has_all(alloc, &first));
    assert!(rt; second.len() == 1999);
    assert!(rt; has(alloc, &second, 17, None) && has(alloc, &second, 1998, Some(7)));
    // by their paths, `a.17` stands before `a.1998`
    assert!(rt; differ_at(alloc, &first, &second, [17, 1998]));
    Ok(())
}

/// How many keys the map of a hash has.
fn keys_at(maps: &Maps, hash: &Hash) -> Option<usize> {
    match maps.get(hash) {
        Some(map) => Some(map.len()),
        None => None,
    }
}

/// The maps with one more, unless there is one of its hash.
fn with_map(maps: &Maps, alloc: Global, hash: Hash, map: KeyMap) -> Result<Maps, NoMemory> {
    if maps.get(&hash).is_some() {
        return Ok(maps.clone()?);
    }
    maps.known();
    maps.with(alloc, one(alloc, hash, map)?)
}

#[test]
fn maps_with_one_more_leave_those_before(rt: HostRuntime) -> Result<(), Fail> {
    let alloc = rt.alloc();
    let hash = Hash { bytes: [1; 32] };
    let before = Maps::new(alloc);
    let map = after_others(alloc, &KeyMap::empty())?;
    let maps = with_map(&before, alloc, hash, map)?;
    let same = with_map(&maps, alloc, hash, KeyMap::empty())?;
    assert!(rt; before.len() == 0 && keys_at(&before, &hash).is_none());
    assert!(rt; same.len() == 1 && keys_at(&same, &hash) == Some(1));
    drop(maps);
    assert!(rt; keys_at(&same, &hash) == Some(1));
    Ok(())
}
