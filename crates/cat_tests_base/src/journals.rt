//! A keeper in memory, and the disk calls of a journal.

use cat_codes::bytes::Bytes;
use cat_frames::{has_reading, is_whole_checkpoint};
use cat_io::{Call, MemoryDisk};
use cat_journal::{Journal, migrate};
use cat_keeper::{KeepFault, Keeper, MemKeeper, base_place};
use std::alloc::Global;
use std::process::Abort;

/// A journal without entries.
const NEW: [u8; 17] = *b"NESSIECJ\0\0\0\x01\0\0\0\x01\0";

/// One of format 1.
const OLD: [u8; 17] = *b"NESSIECJ\0\0\0\x01\0\0\0\0\0";

/// A delete of the branch `dev`, at place 2.
const DEV: [u8; 30] = *b"\x03\0\0\0\x02\0\0\0\0\0\0\0\0\0\0\0\0\0\x0f\x42\x40\0\0\0\x03dev\0\0";

/// A delete of the branch `a`, at place 3.
const A: [u8; 28] = *b"\x03\0\0\0\x03\0\0\0\0\0\0\0\0\0\0\0\0\0\x0f\x42\x41\0\0\0\x01a\0\0";

/// A delete of the branch `of/x`, at place 4.
const OF_X: [u8; 31] = *b"\x03\0\0\0\x04\0\0\0\0\0\0\0\0\0\0\0\0\0\x0f\x42\x42\0\0\0\x04of/x\0\0";

/// The commit of a table `t1`, at place 1.
const FIRST: [u8; 172] = *b"\
    \x04\0\0\0\x01\0\0\0\0\0\0\0\x01\0\0\0\0\0\x0fB@\0\0\0\x04main\x01.\x1c\xfa\x82\xb05\xc2l\
    \xbb\xbd\xaec,\xea\x07\x05\x14\xeb\x8bw?aj\xae\xaff\x8e/\x0b\xe8\xf1\x0d\0\0\0\x03one\0\0\0\
    \0\0\0\0\0\0\0\0\0\0\0\0\0\x01\x01\0\x02t1\x01\x01\0\0\0+\x01\0\0\0\0\0\0\0\x01\0\0\0\0\0\0\
    \0\0\0\0\0\x02m1\0\0\0\0\0\0\0\x01\0\0\0\0\0\0\0\0\0\0\0\0\xf9-\xf1L)\x1cU\x08\x1act\xc5\x07\
    K\x13\x94\x01e\x91\xb1\x98\x1c\xd3+;\xdd\xb2\x0a?\x86\xd5\xd4";

/// The catalogue after it.
const STATE: [u8; 252] = *b"\
    \x08\0\0\0\x01\0\0\0\0\0\0\0\x01\0\0\0\0\0\0\0\x01\0\0\0\x04main\x01\xf9-\xf1L)\x1cU\x08\x1a\
    ct\xc5\x07K\x13\x94\x01e\x91\xb1\x98\x1c\xd3+;\xdd\xb2\x0a?\x86\xd5\xd4\0\0\0\x01\0\0\0\x83N\
    C1.\x1c\xfa\x82\xb05\xc2l\xbb\xbd\xaec,\xea\x07\x05\x14\xeb\x8bw?aj\xae\xaff\x8e/\x0b\xe8\
    \xf1\x0d\0\0\0\0\0\0\0\0\x01\0\0\0\0\0\x0fB@\0\0\0\x03one\0\0\0\0\0\0\0\0\0\0\0\0\0\0\0\0\
    \x01\x01\0\x02t1\x01\x01\0\0\0\0\0\0\0\x01\0\0\0\0\0\0\0\0\xfc\xbe\"\x8a\xdc}\xb2\xe1\xca\
    \x9c\x94\xf6b\xf8lU%\x03\x8d\xe6&C\xebp\xd5\xd7)\x0d\x91\xfb\xab\x0a\0\0\0\x01\0\0\0+\x01\0\
    \0\0\0\0\0\0\x01\0\0\0\0\0\0\0\0\0\0\0\x02m1\0\0\0\0\0\0\0\x01\0\0\0\0\0\0\0\0\0\0\0\0";

/// The journal on a disk with these bytes, of which the calls with these numbers fail, and those
/// after `last`.
fn journal<R: Abort>(
    rt: &R,
    alloc: Global,
    bytes: &[u8],
    failing: &[u64],
    last: u64,
) -> Journal<MemoryDisk> {
    let (Ok(bytes), Ok(failing)) = (bytes.to_vec(alloc), failing.to_vec(alloc)) else {
        panic!(rt; "there is memory");
    };
    let Ok(disk) = MemoryDisk::new(alloc, bytes, 1000, 100) else {
        panic!(rt; "there is memory");
    };
    match Journal::open(alloc, disk.failing(failing, last)) {
        Ok(journal) => journal,
        Err(_) => panic!(rt; "the journal opens"),
    }
}

/// Makes room for a payload and appends it; none where it is no payload, or where memory runs out.
fn add<K: Keeper>(alloc: Global, keeper: &mut K, payload: &[u8]) -> Option<Result<(), KeepFault>> {
    let Ok(readable) = has_reading(alloc, payload) else {
        return None;
    };
    if !readable || payload.len() >= 1 << 32 || keeper.count() >= 4_294_967_295 {
        return None;
    }
    keeper.reserve(payload.len()).ok()?;
    Some(keeper.append(payload))
}

/// Whether payloads are appended, one after another.
fn add_all<K: Keeper>(alloc: Global, keeper: &mut K, payloads: &[&[u8]]) -> bool {
    for payload in payloads {
        if add(alloc, keeper, payload) != Some(Ok(())) {
            return false;
        }
    }
    true
}

/// Whether the payload at a place is this one.
fn holds<K: Keeper>(alloc: Global, keeper: &mut K, i: u32, payload: &[u8]) -> bool {
    if i >= keeper.count() {
        return false;
    }
    match keeper.entry(alloc, i) {
        Ok(bytes) => bytes.as_slice() == payload,
        Err(_) => false,
    }
}

/// Whether these are the payloads.
fn holds_all<K: Keeper>(alloc: Global, keeper: &mut K, payloads: &[&[u8]]) -> bool {
    let mut place = 0u32;
    for payload in payloads {
        if !holds(alloc, keeper, place, payload) {
            return false;
        }
        place = place.wrapping_add(1);
    }
    keeper.count() as usize == payloads.len()
}

/// A keeper of one payload.
fn keeper_of(alloc: Global, payload: &[u8]) -> Option<MemKeeper> {
    let payload = Bytes::from_slice(alloc, payload).ok()?;
    let payloads = vec![in alloc; payload].ok()?;
    Some(MemKeeper::new(alloc, payloads))
}

#[test]
fn a_keeper_in_memory_holds_what_was_appended(rt: HostRuntime) {
    let alloc = rt.alloc();
    let Some(mut keeper) = keeper_of(alloc, &DEV) else {
        panic!(rt; "there is memory");
    };
    assert!(rt; add_all(alloc, &mut keeper, &[&A, &OF_X]));
    assert!(rt; holds_all(alloc, &mut keeper, &[&DEV, &A, &OF_X]));
    assert!(rt; keeper.payloads().len() == 3 && keeper.fault_count() == 0);
}

const CALLS: [Call; 8] = [
    Call::Write(17, 35),
    Call::Sync,
    Call::Write(16, 1),
    Call::Sync,
    Call::Write(52, 33),
    Call::Sync,
    Call::Write(51, 1),
    Call::Sync,
];

#[test]
fn an_append_is_two_writes_and_two_syncs(rt: HostRuntime) {
    let alloc = rt.alloc();
    let mut journal = journal(&rt, alloc, b"", &[], u64::MAX);
    let added = add_all(alloc, &mut journal, &[&DEV, &A]);
    let disk = journal.into_disk();
    assert!(rt; added);
    assert!(rt; disk.calls().len() == 12 && disk.calls().ends_with(&CALLS));
}

// Four calls open the journal, and four append the first entry.
#[test]
fn an_entry_is_read_back_and_a_read_that_fails_is_a_fault_alone(rt: HostRuntime) {
    let alloc = rt.alloc();
    let mut journal = journal(&rt, alloc, &NEW, &[9], u64::MAX);
    let first = add_all(alloc, &mut journal, &[&DEV]);
    let failed = !holds(alloc, &mut journal, 0, &DEV);
    let read = holds_all(alloc, &mut journal, &[&DEV]);
    let more = add_all(alloc, &mut journal, &[&A, &OF_X]);
    let all = holds_all(alloc, &mut journal, &[&DEV, &A, &OF_X]);
    let faults = journal.fault_count();
    drop(journal);
    assert!(rt; first && failed && read);
    assert!(rt; more && all && faults == 1);
}

/// How many payloads the bytes stand for.
fn count_in(alloc: Global, bytes: Vec<u8>) -> Option<u32> {
    let disk = MemoryDisk::new(alloc, bytes, 1000, 100).ok()?;
    match Journal::open(alloc, disk) {
        Ok(journal) => Some(journal.count()),
        Err(_) => None,
    }
}

/// Whether each image that a crash leaves of an append that was stopped after so many calls has the
/// append out or in, as it may.
fn are_out_or_in(alloc: Global, disk: &MemoryDisk, calls: u64) -> bool {
    for pick in 0..27 {
        let count = match calls {
            1 | 2 => 1,
            3 if pick % 3 == 0 => 1,
            _ => 2,
        };
        let Ok(image) = disk.crash(alloc, pick) else {
            return false;
        };
        if count_in(alloc, image) != Some(count) {
            return false;
        }
    }
    true
}

/// Whether an append that is stopped after so many calls is told so, and leaves what it may. Five
/// calls open the journal of one entry.
fn is_stopped<R: Abort>(rt: &R, alloc: Global, bytes: &[u8], calls: u64) -> bool {
    let mut journal = journal(rt, alloc, bytes, &[], calls.saturating_add(5));
    let added = add(alloc, &mut journal, &A);
    let disk = journal.into_disk();
    let told = if calls < 4 {
        added == Some(Err(KeepFault::Fault))
    } else {
        added == Some(Ok(()))
    };
    told && are_out_or_in(alloc, &disk, calls)
}

#[test]
fn a_stop_leaves_an_append_out_or_in(rt: HostRuntime) {
    let alloc = rt.alloc();
    let mut first = journal(&rt, alloc, &NEW, &[], u64::MAX);
    let added = add_all(alloc, &mut first, &[&DEV]);
    let kept = first.into_disk();
    assert!(rt; added);
    for calls in 1..5 {
        assert!(rt; is_stopped(&rt, alloc, kept.bytes(), calls), "{calls}");
    }
}

/// Makes room for a base and goes on from it; none where it is no checkpoint, or where memory runs
/// out.
fn rebase<K: Keeper>(
    alloc: Global,
    keeper: &mut K,
    payload: &[u8],
) -> Option<Result<(), KeepFault>> {
    let Ok(whole) = is_whole_checkpoint(alloc, payload) else {
        return None;
    };
    if !whole || payload.len() >= 1 << 32 || keeper.format() != 2 {
        return None;
    }
    keeper.reserve(payload.len()).ok()?;
    Some(keeper.rebase(base_place(payload), payload))
}

/// Whether this is the base, at its place, with so many entries behind it.
fn begins<K: Keeper>(
    alloc: Global,
    keeper: &mut K,
    payload: &[u8],
    place: u32,
    count: u32,
) -> bool {
    if keeper.first() != place || keeper.count() != count {
        return false;
    }
    match keeper.base(alloc) {
        Ok(Some(base)) => base.as_slice() == payload,
        _ => false,
    }
}

#[test]
fn a_keeper_in_memory_goes_on_from_a_base(rt: HostRuntime) {
    let alloc = rt.alloc();
    let Some(mut keeper) = keeper_of(alloc, &FIRST) else {
        panic!(rt; "there is memory");
    };
    assert!(rt; rebase(alloc, &mut keeper, &STATE) == Some(Ok(())));
    assert!(rt; begins(alloc, &mut keeper, &STATE, 1, 0));
    assert!(rt; add_all(alloc, &mut keeper, &[&DEV]));
    assert!(rt; begins(alloc, &mut keeper, &STATE, 1, 1) && holds(alloc, &mut keeper, 0, &DEV));
}

#[test]
fn a_base_is_written_as_an_entry_is_and_opens_again(rt: HostRuntime) {
    let alloc = rt.alloc();
    let mut first = journal(&rt, alloc, b"", &[], u64::MAX);
    assert!(rt; add_all(alloc, &mut first, &[&FIRST]));
    assert!(rt; rebase(alloc, &mut first, &STATE) == Some(Ok(())));
    assert!(rt; first.first() == 1 && first.count() == 0);
    let disk = first.into_disk();
    assert!(rt;
        disk.calls().ends_with(&[
            Call::Write(194, 257),
            Call::Sync,
            Call::Write(193, 1),
            Call::Sync,
        ])
    );
    assert!(rt; disk.bytes().len() == 451 && disk.bytes()[193] == 1 && disk.bytes()[450] == 0);
    let mut again = journal(&rt, alloc, disk.bytes(), &[], u64::MAX);
    assert!(rt; begins(alloc, &mut again, &STATE, 1, 0));
    assert!(rt; add_all(alloc, &mut again, &[&DEV]));
    assert!(rt; begins(alloc, &mut again, &STATE, 1, 1) && holds(alloc, &mut again, 0, &DEV));
}

#[test]
fn a_journal_of_format_1_is_migrated_by_one_byte(rt: HostRuntime) {
    let alloc = rt.alloc();
    let mut old = journal(&rt, alloc, &OLD, &[], u64::MAX);
    assert!(rt; old.format() == 1 && rebase(alloc, &mut old, &STATE).is_none());
    let Ok(migrated) = migrate(alloc, old.into_disk()) else {
        panic!(rt; "the journal opens");
    };
    assert!(rt; migrated.format() == 2);
    let disk = migrated.into_disk();
    assert!(rt; disk.bytes() == NEW.as_slice());
    assert!(rt; disk.calls().ends_with(&[Call::Write(15, 1), Call::Sync]));
}
