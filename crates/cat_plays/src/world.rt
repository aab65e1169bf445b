//! The outside of a row: a file, a clock, and calls that are to fail, all in memory.

use crate::fault::Fault;
use crate::splits::{bytes_of_hex, first_word, number};
use cat_cli::run;
use cat_io::{Clock, MemoryClock, MemoryDisk, MemoryDisks, MemorySink, MemorySource, NoListener};
use std::alloc::{AllocError, Global};
use std::sync::Wait;
use std::thread::Threads;

const FILE_ROOM: usize = 2_000_000;

const FILE_CALLS: usize = 10_000;

const SINK_ROOM: usize = 2_000_000;

const FARTHEST: u64 = 1_000_000;

const SECOND: u64 = 1_000_000;

/// The calls that fail in the next run.
#[derive(Drop)]
pub struct Failing {
    reads: Vec<u64>,
    writes: Vec<u64>,
    calls: Vec<u64>,
    opens: Vec<u64>,
    last: u64,
}

impl Failing {
    pub fn none(alloc: Global) -> Failing {
        Failing {
            reads: Vec::new(alloc),
            writes: Vec::new(alloc),
            calls: Vec::new(alloc),
            opens: Vec::new(alloc),
            last: u64::MAX,
        }
    }
}

/// The outside of a row.
#[derive(Drop)]
pub struct World {
    path: String,
    // The file as the last run left it, under its name.
    disks: MemoryDisks,
    clock: MemoryClock,
    step: u64,
    piece: usize,
    failing: Failing,
}

/// How a run ended, and what it wrote.
#[derive(Drop)]
pub struct Ran {
    pub status: u8,
    pub told: Vec<u8>,
}

fn disks(
    alloc: Global,
    path: &str,
    bytes: Vec<u8>,
    calls: Vec<u64>,
    last: u64,
) -> Result<MemoryDisks, AllocError> {
    let disk = MemoryDisk::new(alloc, bytes, FILE_ROOM, FILE_CALLS)?;
    MemoryDisks::new(alloc).with(alloc, path, disk.failing(calls, last))
}

impl World {
    /// An empty file, and a clock at its first second.
    pub fn new(alloc: Global) -> Result<World, AllocError> {
        let path = String::from_str(alloc, "a.journal")?;
        let clock = MemoryClock::new(SECOND, SECOND);
        World::with(alloc, path, &[], clock, SECOND, 4096)
    }

    fn with(
        alloc: Global,
        path: String,
        bytes: &[u8],
        clock: MemoryClock,
        step: u64,
        piece: usize,
    ) -> Result<World, AllocError> {
        let bytes = Vec::from_slice(alloc, bytes)?;
        let disks = disks(alloc, path.as_str(), bytes, Vec::new(alloc), u64::MAX)?;
        Ok(World {
            path,
            disks,
            clock,
            step,
            piece,
            failing: Failing::none(alloc),
        })
    }

    /// The same file, clock and source in another place, and nothing that fails.
    pub fn twin(&self, alloc: Global) -> Result<World, AllocError> {
        World::with(
            alloc,
            self.path.clone()?,
            self.bytes(),
            self.clock.twin(),
            self.step,
            self.piece,
        )
    }

    pub fn path(&self) -> &str {
        self.path.as_str()
    }

    /// The file's bytes.
    pub fn bytes(&self) -> &[u8] {
        match self.disks.at(self.path.as_str()) {
            Some(disk) => disk.bytes(),
            None => &[],
        }
    }

    /// What is to fail in the next run is left out, and handed over.
    pub fn without_failing(&mut self, alloc: Global) -> Failing {
        std::mem::replace(&mut self.failing, Failing::none(alloc))
    }

    pub fn with_failing(&mut self, failing: Failing) {
        self.failing = failing;
    }

    /// Makes what a line says so.
    pub fn set(&mut self, alloc: Global, word: &str, text: &str) -> Result<(), Fault> {
        match word {
            "journal" => self.rename(alloc, text),
            "disk" => {
                let bytes = bytes_of_hex(alloc, text)?;
                Ok(self.put_file(alloc, bytes)?)
            }
            "put" => self.put(alloc, text),
            "xor" => self.xor(alloc, text),
            _ => self.set_number(alloc, word, number(text)?),
        }
    }

    fn set_number(&mut self, alloc: Global, word: &str, number: u64) -> Result<(), Fault> {
        match word {
            "cut" => self.cut(alloc, number)?,
            "crash" => self.crash(alloc, number)?,
            "piece" => self.piece = number.min(FARTHEST) as usize,
            "second" => self.clock = MemoryClock::new(number.saturating_mul(SECOND), self.step),
            "step" => {
                self.step = number.saturating_mul(SECOND);
                self.clock = MemoryClock::new(self.clock.now(), self.step);
            }
            "read-fails" => self.failing.reads.push(number)?,
            "write-fails" => self.failing.writes.push(number)?,
            "disk-fails" => self.failing.calls.push(number)?,
            "open-fails" => self.failing.opens.push(number)?,
            "stop" => self.failing.last = number,
            _ => return Err(Fault::NoReading),
        }
        Ok(())
    }

    fn put_file(&mut self, alloc: Global, bytes: Vec<u8>) -> Result<(), AllocError> {
        self.disks = disks(alloc, self.path.as_str(), bytes, Vec::new(alloc), u64::MAX)?;
        Ok(())
    }

    fn rename(&mut self, alloc: Global, name: &str) -> Result<(), Fault> {
        let bytes = Vec::from_slice(alloc, self.bytes())?;
        self.path = String::from_str(alloc, name)?;
        Ok(self.put_file(alloc, bytes)?)
    }

    fn cut(&mut self, alloc: Global, length: u64) -> Result<(), AllocError> {
        let bytes = self.bytes();
        let length = length.min(bytes.len() as u64) as usize;
        let front = Vec::from_slice(alloc, bytes.get(..length).unwrap_or(bytes))?;
        self.put_file(alloc, front)
    }

    fn crash(&mut self, alloc: Global, picture: u64) -> Result<(), AllocError> {
        let image = match self.disks.at(self.path.as_str()) {
            Some(disk) => disk.crash(alloc, picture)?,
            None => Vec::new(alloc),
        };
        self.put_file(alloc, image)
    }

    // Puts bytes into the file, with zeros in a gap before them.
    fn put(&mut self, alloc: Global, text: &str) -> Result<(), Fault> {
        let (place, digits) = first_word(text);
        let place = number(place)?;
        let piece = bytes_of_hex(alloc, digits)?;
        if place > FARTHEST {
            return Err(Fault::NoReading);
        }
        let place = place as usize;
        let bytes = self.bytes();
        let mut all = Vec::from_slice(alloc, bytes.get(..place).unwrap_or(bytes))?;
        all.resize(place, 0)?;
        all.extend_from_slice(&piece)?;
        all.extend_from_slice(bytes.get(all.len()..).unwrap_or(&[]))?;
        Ok(self.put_file(alloc, all)?)
    }

    // Changes the bytes from a place on by these.
    fn xor(&mut self, alloc: Global, text: &str) -> Result<(), Fault> {
        let (place, digits) = first_word(text);
        let place = number(place)?;
        let by = bytes_of_hex(alloc, digits)?;
        if place > FARTHEST {
            return Err(Fault::NoReading);
        }
        let bytes = self.bytes();
        let rest = bytes.get(place as usize..).unwrap_or(&[]);
        let mut all = Vec::from_slice(alloc, bytes.get(..place as usize).unwrap_or(bytes))?;
        for (byte, by) in rest.iter().zip(by.iter()) {
            all.push(*byte ^ *by)?;
        }
        all.extend_from_slice(bytes.get(all.len()..).unwrap_or(&[]))?;
        Ok(self.put_file(alloc, all)?)
    }

    /// A run with these words, which is sent these bytes. What is to fail is used up.
    pub fn run<R: Threads + Wait + Sync>(
        &mut self,
        rt: &R,
        alloc: Global,
        words: &[&str],
        sent: &[u8],
    ) -> Result<Ran, AllocError> {
        let Failing {
            reads,
            writes,
            calls,
            opens,
            last,
        } = self.without_failing(alloc);
        let bytes = Vec::from_slice(alloc, self.bytes())?;
        let fresh = disks(alloc, self.path.as_str(), bytes, calls, last)?;
        self.disks = fresh.failing(opens);
        let piece = self.piece.max(1);
        let mut source = MemorySource::new(Vec::from_slice(alloc, sent)?, piece, reads);
        let mut sink = MemorySink::new(alloc, SINK_ROOM, writes)?;
        let status = run(
            rt,
            alloc,
            words,
            &mut self.disks,
            &mut source,
            &mut sink,
            &mut self.clock,
            &mut NoListener::new(),
        );
        Ok(Ran {
            status: status.code(),
            told: Vec::from_slice(alloc, sink.bytes())?,
        })
    }
}
