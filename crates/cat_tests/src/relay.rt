//! A gate by which two threads meet: each puts notes on a board, and awaits the other's.

use cat_desk::{Gate, Pass};
use std::sync::{Condvar, Mutex, Wait};
use std::time::{Clock, Duration};

/// How many notes there are. A thread that awaits some sleeps meanwhile.
#[derive(Drop)]
pub(crate) struct Board {
    notes: Mutex<u32>,
    more: Condvar,
}

impl Board {
    pub(crate) fn new() -> Board {
        Board {
            notes: Mutex::new(0),
            more: Condvar::new(),
        }
    }

    /// Puts a note.
    pub(crate) fn put<R: Wait>(&self, rt: &R) {
        let mut notes = self.notes.lock(rt);
        *notes = notes.saturating_add(1);
        drop(notes);
        self.more.notify_all();
    }

    /// Waits until there are so many notes, for ten seconds at most, and tells whether they came.
    pub(crate) fn wait<R: Wait + Clock>(&self, rt: &R, wanted: u32) -> bool {
        let longest = Duration::from_secs(10);
        let held = self.notes.lock(rt);
        let (held, end) = self
            .more
            .wait_timeout_while(rt, held, longest, |notes| *notes < wanted);
        drop(held);
        !end.timed_out()
    }
}

/// Each time that it is asked it puts a note, and holds the call until there are as many as it
/// awaits then.
#[derive(Drop)]
pub(crate) struct Relay<'a, R> {
    rt: &'a R,
    board: &'a Board,
    /// How many notes it awaits before the first attempt, and before the second; it awaits none
    /// later.
    awaited: (u32, u32),
    /// The number of the attempt before which it was asked last.
    asked: u32,
    /// It was asked before each attempt in turn, and the notes that it awaited came.
    is_well: bool,
}

impl<'a, R> Relay<'a, R> {
    pub(crate) fn new(rt: &'a R, board: &'a Board, awaited: (u32, u32)) -> Relay<'a, R> {
        Relay {
            rt,
            board,
            awaited,
            asked: 0,
            is_well: true,
        }
    }

    /// Before how many attempts it was asked, where each came in turn and the notes that it awaited
    /// came.
    pub(crate) fn asked(&self) -> Option<u32> {
        if self.is_well { Some(self.asked) } else { None }
    }
}

fn awaited(both: (u32, u32), attempt: u32) -> u32 {
    match attempt {
        1 => both.0,
        2 => both.1,
        _ => 0,
    }
}

impl<'a, R: Wait + Clock> Gate for Relay<'a, R> {
    ghost use Rattle.std.specs.Prelude.{[]};

    ghost ready = { λ _. Unit {0} };

    ghost desks = { λ _. [] };

    fn between(&mut self, _pass: &Pass, attempt: u32) {
        let is_next = attempt.checked_sub(1) == Some(self.asked);
        self.board.put(self.rt);
        let came = self.board.wait(self.rt, awaited(self.awaited, attempt));
        self.asked = attempt;
        self.is_well = self.is_well && is_next && came;
    }
}
