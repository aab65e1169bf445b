//! A file of rows, played line by line.

use crate::fault::Fault;
use crate::names::Names;
use crate::pattern::write_out;
use crate::report::Report;
use crate::sent::{Sent, is_sending};
use crate::short::{Short, play_short};
use crate::splits::{bounds, bytes_of_hex, counting, first_word, number, words};
use crate::wanted::{Wanted, first_difference, is_wanting};
use crate::world::{Ran, World};
use std::alloc::{AllocError, Global};
use std::sync::Wait;
use std::thread::Threads;

// As often are the lines of a `for` played at most.
const MOST_TIMES: u64 = 1_000_000;

/// How runs are played.
#[derive(Clone, Copy, Debug)]
pub enum Way {
    /// With all memory, so that each has to do what is wanted.
    Whole,
    /// As sessions in which an allocation may be refused.
    Short,
}

// The lines of a `for`, with their numbers.
#[derive(Drop)]
struct Times<'a> {
    first: u64,
    last: u64,
    lines: Vec<(u64, &'a str)>,
}

// What a file has said so far.
#[derive(Drop)]
struct Player<'a> {
    way: Way,
    names: Names,
    times: Option<Times<'a>>,
    world: World,
    sent: Sent,
    wanted: Wanted,
    restart: Option<u64>,
    report: Report,
}

/// Plays a file of rows.
pub fn play<R: Threads + Wait + Sync>(
    rt: &R,
    alloc: Global,
    way: Way,
    text: &str,
) -> Result<Report, AllocError> {
    let mut player = Player {
        way,
        names: Names::new(alloc),
        times: None,
        world: World::new(alloc)?,
        sent: Sent::new(alloc),
        wanted: Wanted::new(alloc),
        restart: None,
        report: Report::new(alloc),
    };
    let mut number: u64 = 0;
    for line in text.split('\n') {
        number = number.saturating_add(1);
        player.take_line(rt, alloc, number, line)?;
    }
    player.end(alloc)
}

impl<'a> Player<'a> {
    fn end(self, alloc: Global) -> Result<Report, AllocError> {
        let is_played = self.is_played();
        let mut report = self.report;
        if self.times.is_some() {
            report.cannot(alloc, &Fault::NoEnd)?;
        }
        if !is_played {
            report.cannot(alloc, &Fault::NoRun)?;
        }
        Ok(report)
    }

    fn is_played(&self) -> bool {
        self.sent.is_empty() && self.wanted.is_empty()
    }

    // Plays a line, or keeps it as one of a `for`.
    fn take_line<R: Threads + Wait + Sync>(
        &mut self,
        rt: &R,
        alloc: Global,
        number: u64,
        line: &'a str,
    ) -> Result<(), AllocError> {
        if line.is_empty() || line.starts_with('#') {
            return Ok(());
        }
        match self.times.take() {
            Some(times) if line == "end" => self.play_times(rt, alloc, &times),
            Some(mut times) => {
                times.lines.push((number, line))?;
                self.times = Some(times);
                Ok(())
            }
            None => self.play_line(rt, alloc, (number, line), None),
        }
    }

    fn play_times<R: Threads + Wait + Sync>(
        &mut self,
        rt: &R,
        alloc: Global,
        times: &Times<'a>,
    ) -> Result<(), AllocError> {
        let count = times.last.saturating_add(1).saturating_sub(times.first);
        for index in 0..count.min(MOST_TIMES) {
            let time = times.first.saturating_add(index);
            for line in &times.lines {
                self.play_line(rt, alloc, *line, Some(time))?;
            }
        }
        Ok(())
    }

    fn play_line<R: Threads + Wait + Sync>(
        &mut self,
        rt: &R,
        alloc: Global,
        line: (u64, &'a str),
        time: Option<u64>,
    ) -> Result<(), AllocError> {
        let (number, line) = line;
        self.report.at_line(number);
        match self.do_line(rt, alloc, line, time) {
            Ok(()) => Ok(()),
            Err(Fault::NoMemory) => Err(AllocError),
            Err(fault) => self.report.cannot(alloc, &fault),
        }
    }

    fn do_line<R: Threads + Wait + Sync>(
        &mut self,
        rt: &R,
        alloc: Global,
        line: &'a str,
        time: Option<u64>,
    ) -> Result<(), Fault> {
        let text = write_out(alloc, line, time)?;
        let Some(line) = counting(text.as_str(), time)? else {
            return Ok(());
        };
        let (word, rest) = first_word(line);
        match word {
            "row" => Ok(self.begin_row(alloc, rest)?),
            "let" => {
                let (name, text) = first_word(rest);
                let in_row = self.report.has_row();
                self.names.give(alloc, name, text, in_row)
            }
            "for" if time.is_none() => self.begin_times(alloc, rest),
            _ if !self.report.has_row() => Err(Fault::NoRow),
            _ if is_wanting(word) => {
                let text = self.names.wanted(alloc, rest, self.wanted.holes())?;
                self.wanted.want(alloc, word, text)
            }
            _ => {
                let text = self.names.plain(alloc, rest)?;
                self.act(rt, alloc, word, text.as_str())
            }
        }
    }

    fn begin_row(&mut self, alloc: Global, name: &str) -> Result<(), AllocError> {
        if !self.is_played() {
            self.report.cannot(alloc, &Fault::NoRun)?;
        }
        self.report.begin_row(alloc, name)?;
        self.names.forget_row(alloc);
        self.world = World::new(alloc)?;
        self.sent = Sent::new(alloc);
        self.wanted = Wanted::new(alloc);
        self.restart = None;
        Ok(())
    }

    fn begin_times(&mut self, alloc: Global, text: &str) -> Result<(), Fault> {
        let (first, last) = bounds(text)?;
        if last < first || last.saturating_sub(first) >= MOST_TIMES {
            return Err(Fault::NoReading);
        }
        self.times = Some(Times {
            first,
            last,
            lines: Vec::new(alloc),
        });
        Ok(())
    }

    fn act<R: Threads + Wait + Sync>(
        &mut self,
        rt: &R,
        alloc: Global,
        word: &str,
        text: &str,
    ) -> Result<(), Fault> {
        match word {
            "run" => self.run(rt, alloc, &["nessie"], text),
            "program" => self.run(rt, alloc, &[], text),
            "restart" => {
                self.restart = Some(number(text)?);
                Ok(())
            }
            "disk-is" => match self.way {
                Way::Whole => self.judge_file(alloc, text),
                Way::Short => Ok(()),
            },
            _ if is_sending(word) => self.sent.send(alloc, word, text),
            _ => self.world.set(alloc, word, text),
        }
    }

    // A run with these words and those of the text, behind the status that it is to end in.
    fn run<'w, R: Threads + Wait + Sync>(
        &mut self,
        rt: &R,
        alloc: Global,
        first: &[&'w str],
        text: &'w str,
    ) -> Result<(), Fault> {
        let (status, rest) = first_word(text);
        let Ok(status) = u8::try_from(number(status)?) else {
            return Err(Fault::NoReading);
        };
        let mut all = Vec::from_slice(alloc, first)?;
        all.extend_from_slice(&words(alloc, rest)?)?;
        let sent = std::mem::replace(&mut self.sent, Sent::new(alloc));
        let wanted = std::mem::replace(&mut self.wanted, Wanted::new(alloc));
        match self.way {
            Way::Whole => self.run_whole(rt, alloc, &all, &sent, &wanted, status),
            Way::Short => Ok(self.run_short(rt, alloc, &all, &sent, status)?),
        }
    }

    fn run_whole<R: Threads + Wait + Sync>(
        &mut self,
        rt: &R,
        alloc: Global,
        words: &[&str],
        sent: &Sent,
        wanted: &Wanted,
        status: u8,
    ) -> Result<(), Fault> {
        self.report.count_run();
        let ran = match self.restart.take() {
            Some(count) => self.run_twice(rt, alloc, words, sent, count)?,
            None => self.world.run(rt, alloc, words, sent.bytes())?,
        };
        if ran.status != status {
            self.report.status_differs(alloc, status, ran.status)?;
        }
        if let Some(found) = wanted.difference(alloc, &ran.told)? {
            self.report.bytes_differ(
                alloc,
                "what it wrote",
                found.place,
                &found.wanted,
                &ran.told,
            )?;
        }
        Ok(())
    }

    // Two runs, the first on so many requests, and with nothing that fails.
    fn run_twice<R: Threads + Wait + Sync>(
        &mut self,
        rt: &R,
        alloc: Global,
        words: &[&str],
        sent: &Sent,
        count: u64,
    ) -> Result<Ran, Fault> {
        let Some((before, after)) = sent.split(count) else {
            return Err(Fault::FewRequests);
        };
        let failing = self.world.without_failing(alloc);
        let first = self.world.run(rt, alloc, words, before)?;
        self.world.with_failing(failing);
        if first.status != 0 {
            self.report.status_differs(alloc, 0, first.status)?;
        }
        let second = self.world.run(rt, alloc, words, after)?;
        let mut told = first.told;
        told.extend_from_slice(&second.told)?;
        Ok(Ran {
            status: second.status,
            told,
        })
    }

    // Plays a session that is to end in 0; nothing but memory fails in it.
    fn run_short<R: Threads + Wait + Sync>(
        &mut self,
        rt: &R,
        alloc: Global,
        words: &[&str],
        sent: &Sent,
        status: u8,
    ) -> Result<(), AllocError> {
        let _ = self.world.without_failing(alloc);
        if status != 0 || !words.contains(&"script") {
            return Ok(());
        }
        self.report.count_run();
        match play_short(rt, alloc, &mut self.world, words, sent)? {
            Short::Whole => Ok(()),
            Short::Right => {
                self.report.count_refused();
                Ok(())
            }
            Short::Wrong(what) => {
                self.report.count_refused();
                self.report.differs(alloc, what)
            }
        }
    }

    fn judge_file(&mut self, alloc: Global, text: &str) -> Result<(), Fault> {
        let wanted = bytes_of_hex(alloc, text)?;
        let came = self.world.bytes();
        if let Some(place) = first_difference(&wanted, came, false) {
            self.report
                .bytes_differ(alloc, "the file", place, &wanted, came)?;
        }
        Ok(())
    }
}
