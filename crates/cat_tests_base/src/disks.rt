//! The images that a crash leaves of a disk in memory.

use cat_io::{Call, Disk, Failed, MemoryDisk};
use std::alloc::{AllocError, Global};

/// A disk with these bytes, and room for a hundred more and as many calls.
fn disk(alloc: Global, bytes: &[u8]) -> Result<MemoryDisk, AllocError> {
    MemoryDisk::new(alloc, Vec::from_slice(alloc, bytes)?, 100, 100)
}

/// Whether this is the image that a pick leaves.
fn is_left(alloc: Global, disk: &MemoryDisk, pick: usize, image: &[u8]) -> bool {
    match disk.crash(alloc, pick as u64) {
        Ok(left) => left.as_slice() == image,
        Err(_) => false,
    }
}

/// Whether these are the images that the picks leave, from 0 on.
fn are_left(alloc: Global, disk: &MemoryDisk, images: &[&[u8]]) -> bool {
    for (pick, image) in images.iter().enumerate() {
        if !is_left(alloc, disk, pick, image) {
            return false;
        }
    }
    true
}

/// A write before a sync, and two after it.
fn write_thrice(disk: &mut MemoryDisk) -> Result<(), Failed> {
    disk.write_at(0, b"A")?;
    disk.sync()?;
    disk.write_at(1, b"B")?;
    disk.write_at(3, b"DE")
}

/// A write and a cut before a sync.
fn write_and_cut(disk: &mut MemoryDisk) -> Result<(), Failed> {
    disk.write_at(2, b"cd")?;
    disk.cut(3)?;
    disk.sync()
}

const WRITES: [&[u8]; 9] = [
    b"Abcd",
    b"ABcd",
    b"A\x01cd",
    b"AbcDE",
    b"ABcDE",
    b"A\x01cDE",
    b"Abc\x01\x01",
    b"ABc\x01\x01",
    b"A\x01c\x01\x01",
];

const CALLS: [Call; 4] = [
    Call::Write(0, 1),
    Call::Sync,
    Call::Write(1, 1),
    Call::Write(3, 2),
];

#[test]
fn a_pick_leaves_out_does_or_tears_each_write_since_the_last_sync(rt: HostRuntime) {
    let alloc = rt.alloc();
    let (Ok(mut written), Ok(mut cut), Ok(mut synced)) = (
        disk(alloc, b"abcd"),
        disk(alloc, b"abcd"),
        disk(alloc, b"ab"),
    ) else {
        panic!(rt; "there is memory");
    };
    let done = [
        write_thrice(&mut written),
        cut.cut(2),
        write_and_cut(&mut synced),
    ];
    assert!(rt; done == [Ok(()); 3]);
    assert!(rt; are_left(alloc, &written, &WRITES));
    assert!(rt; are_left(alloc, &cut, &[b"abcd", b"ab", b"ab"]));
    assert!(rt; are_left(alloc, &synced, &[b"abc", b"abc", b"abc", b"abc"]));
    assert!(rt; written.calls() == CALLS.as_slice());
}
