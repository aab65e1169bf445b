//! A value for a desk: a log in memory.

ghost use Rattle.std.specs.Prelude.{◌≡◌, length};
ghost use Rattle.cat_model.specs.Turns.{Adds};

use cat_codes::fault::NoMemory;
use cat_model::command::{Command, Delete};
use cat_model::log_entry::{Action, LogEntry};
use cat_model::logged::Logged;
use cat_model::moment::Moment;
use cat_names::ref_name::RefName;
use std::alloc::Global;

/// A log in memory: every log is legal, and nothing is kept beside it.
#[derive(Drop)]
pub(crate) struct Notes {
    entries: Vec<LogEntry>,
    count: u32,
    ghost counted: { count ≡ length entries.items },
}

impl Logged for Notes {
    ghost use Rattle.std.specs.Prelude.{[]};
    ghost use Rattle.cat_model.specs.Drafts.{nothing_open};
    ghost use Rattle.cat_model.specs.Limits.{program_limits};
    ghost use Rattle.cat_model.specs.Mark.{no_mark};
    ghost use Rattle.cat_model.specs.State.{first_state};

    ghost log = { λ n. n.entries.items };

    ghost opened = { λ _. record {
      state = first_state (λ bytes. bytes) program_limits;
      draft = 0;
      drafts = [];
      payloads = 0;
      faults = 0;
    } };

    ghost legal = { λ _ _. Unit {0} };

    ghost mark = { λ _. no_mark };

    ghost left_open = { λ _. nothing_open };

    fn count(&self) -> u32 {
        self.count
    }

    fn first(&self) -> u32 {
        0
    }
}

impl Notes {
    pub(crate) fn new(alloc: Global) -> Notes {
        Notes {
            entries: Vec::new(alloc),
            count: 0,
        }
    }

    /// Adds an entry of the caller.
    pub(crate) fn add(&mut self, alloc: Global, caller: u32) -> Result<(), NoMemory>
        ensures { Adds caller self.old.entries.items self.new.entries.items }
    {
        if self.count == u32::MAX {
            return Err(NoMemory);
        }
        let Ok(name) = RefName::parse(alloc, "dev") else {
            return Err(NoMemory);
        };
        self.entries.push(entry(name, caller))?;
        self.count += 1;
        Ok(())
    }

    /// How many entries are of this caller.
    pub(crate) fn count_of(&self, caller: u32) -> usize {
        self.entries.iter().filter(|x| x.caller == caller).count()
    }
}

fn entry(name: RefName, caller: u32) -> LogEntry
    ensures { result.caller ≡ caller }
{
    LogEntry {
        place: 0,
        caller,
        draft: 0,
        moment: Moment::from_micros(0),
        action: Action::Call(Command::Delete(Delete {
            name,
            kind: None,
            expected: None,
        })),
        head: None,
    }
}
