//! A disk that is read ahead.

ghost use Rattle.std.specs.Prelude.{◌≡◌, ◌+◌, ◌≤◌, IfSome};

use cat_io::{Disk, Failed};
use std::marker::Model;

/// How many bytes are read at once.
const ROOM: usize = 4096;

/// A disk whose bytes are read by pieces, so that short reads one behind the other cost few calls.
/// It is the disk: it writes through, and forgets what it has read when it does.
#[derive(Drop)]
pub(crate) struct ReadAhead<D: Disk> {
    disk: D,
    /// Where the bytes stand that were read last.
    at: u64,
    /// How many they are.
    len: usize,
    bytes: [u8; ROOM],
}

impl<D: Disk> Model for ReadAhead<D> {
    ghost use Rattle.cat_journal.specs.Ahead.{IsAhead};

    ghost Value = { D };

    ghost view = { λ r. r.disk };

    ghost invariant = { λ r. IsAhead r.at r.len r.bytes (D.told r.disk) };
}

impl<D: Disk> ReadAhead<D> {
    /// Of a disk of which nothing is read yet.
    pub(crate) fn new(disk: D) -> ReadAhead<D>
        ensures { result ≡ disk }
    {
        ReadAhead {
            disk,
            at: 0,
            len: 0,
            bytes: [0; ROOM],
        }
    }

    /// The disk.
    pub(crate) fn into_inner(self) -> D
        ensures { result ≡ self }
    {
        let ReadAhead { disk, .. } = self;
        disk
    }
}

/// Where these bytes stand, `count` from `at` on, among `len` that stand from `start` on.
fn place_in(start: u64, len: usize, at: u64, count: usize) -> Option<usize>
    ensures { IfSome result (λ from. (at ≡ start + from) × (from + count ≤ len)) }
{
    let from = at.checked_sub(start)?;
    let room = (len as u64).checked_sub(from)?;
    if count as u64 <= room {
        Some(from as usize)
    } else {
        None
    }
}

impl<D: Disk> Disk for ReadAhead<D> {
    ghost told = { λ d. D.told d };

    ghost may_leave = { λ d c. D.may_leave d c };

    ghost moment = { λ d. D.moment d };

    ghost left_since = { λ d t c. D.left_since d t c };

    ghost faults = { λ d. D.faults d };

    ghost counts_now = { λ d t c le now. D.counts_now d t c le now };

    ghost only_now = { λ d c since. D.only_now d c since };

    ghost reads_as_image = { λ d c told. D.reads_as_image d c told };

    fn len(&mut self) -> Result<u64, Failed> {
        self.disk.len()
    }

    fn read_at(&mut self, at: u64, into: &mut [u8]) -> Result<usize, Failed> {
        let count = into.len();
        if let Some(from) = place_in(self.at, self.len, at, count) {
            into.copy_from_slice(&self.bytes[from..from + count]);
            return Ok(count);
        }
        if count > ROOM {
            return self.disk.read_at(at, into);
        }
        self.len = 0;
        self.len = self.disk.read_at(at, &mut self.bytes)?;
        self.at = at;
        let there = count.min(self.len);
        into[..there].copy_from_slice(&self.bytes[..there]);
        Ok(there)
    }

    fn write_at(&mut self, at: u64, bytes: &[u8]) -> Result<(), Failed> {
        self.len = 0;
        self.disk.write_at(at, bytes)
    }

    fn cut(&mut self, len: u64) -> Result<(), Failed> {
        self.len = 0;
        self.disk.cut(len)
    }

    fn sync(&mut self) -> Result<(), Failed> {
        self.disk.sync()
    }

    fn fault_count(&self) -> u64 {
        self.disk.fault_count()
    }
}
