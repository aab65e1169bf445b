//! Entries of the log.

use crate::command::Command;
use crate::moment::Moment;
use crate::sweep::Sweep;
use cat_names::hash::Hash;

/// What was accepted.
#[derive(Drop)]
pub enum Action {
    /// A call, its contents with their ids.
    Call(Command),
    /// A sweep. No call asks for one, so a command never is one.
    Sweep(Sweep),
}

/// An accepted call or sweep.
#[derive(Drop)]
pub struct LogEntry {
    /// How many entries there are with this one.
    pub place: u32,
    /// The pass that made the call; 0 for an entry that was read from a journal.
    pub caller: u32,
    /// The call's draft; 0 for a call that opens none, and for a sweep.
    pub draft: u64,
    pub moment: Moment,
    pub action: Action,
    /// The head that the call left; none where it removed a reference, and for a sweep.
    pub head: Option<Hash>,
}
