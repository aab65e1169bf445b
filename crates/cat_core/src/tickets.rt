//! What is kept of drafts and sweeps beside the log.

ghost use Rattle.std.specs.Prelude.{◌≡◌, [], map};
ghost use Rattle.cat_core.specs.Drafts.{without};
ghost use Rattle.cat_core.specs.Stored.{draft_held, opening_at};

use cat_codes::seq::Seq;
use cat_model::cutoff::Resolved;
use cat_names::hash::Hash;
use std::alloc::Global;

/// What is held of the log before the store's: its greatest draft number, and those below it of the
/// drafts that were open there, how many payloads the keeper had, and how many faults it had
/// counted.
#[derive(Drop)]
pub(crate) struct Start {
    pub(crate) draft: u64,
    pub(crate) drafts: Seq<u64>,
    pub(crate) payloads: u64,
    pub(crate) faults: u64,
}

impl Start {
    /// What is held where there was no log before.
    pub(crate) fn empty(alloc: Global, payloads: u64, faults: u64) -> Start
        ensures { result ≡ record { draft = 0; drafts = []; payloads = payloads; faults = faults } }
    {
        Start {
            draft: 0,
            drafts: Seq::new(alloc),
            payloads,
            faults,
        }
    }
}

/// A draft's or a sweep's number, its caller, and the place of its opening.
#[derive(Clone, Copy)]
pub(crate) struct Ticket {
    pub(crate) number: u64,
    pub(crate) caller: u32,
    pub(crate) place: u32,
}

/// A draft that is open, with the commits and contents that it names.
#[derive(Drop)]
pub(crate) struct OpenDraft {
    pub(crate) ticket: Ticket,
    pub(crate) commits: Vec<Hash>,
    pub(crate) contents: Vec<Hash>,
}

/// The sweep that is open: what it keeps of each chain, and the commits and contents that drafts
/// named which were open since.
#[derive(Drop)]
pub(crate) struct OpenSweep {
    pub(crate) ticket: Ticket,
    pub(crate) policy: Resolved,
    pub(crate) commits: Vec<Hash>,
    pub(crate) contents: Vec<Hash>,
    /// Its caller was given what so many entries of the log made, the oldest, so many of the commits, and so
    /// many of the contents.
    pub(crate) drained: u32,
    pub(crate) given_commits: usize,
    pub(crate) given_contents: usize,
}

/// The sweep that was closed last, and how many names it had, none counted twice.
#[derive(Clone, Copy)]
pub(crate) struct ClosedSweep {
    pub(crate) ticket: Ticket,
    pub(crate) names: u64,
}

/// Whose append or checkpoint failed, and at which count of faults.
#[derive(Clone, Copy)]
pub(crate) struct Fallen {
    pub(crate) caller: u32,
    pub(crate) count: u64,
}

/// Takes the draft of a ticket away.
pub(crate) fn remove(drafts: &mut Vec<OpenDraft>, ticket: Ticket)
    ensures { map draft_held drafts.new.items
        ≡ without (opening_at ticket) (map draft_held drafts.old.items) }
{
    drafts.retain(|x| !(x.ticket.caller == ticket.caller && x.ticket.number == ticket.number));
}
