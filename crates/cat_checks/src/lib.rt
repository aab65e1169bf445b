//! Whether a command is well made: what it has to keep before a catalogue may be asked for it. A
//! command that is read from bytes is tested here in full, and so is whether its entry has the
//! draft that it needs. The definitions of a legal log stand here too: the book that its entries
//! lead to, executed again, or the place of the first that is no entry or may not follow. A log goes
//! on from a state, which may be one that a checkpoint told.
#![tactic(auto)]

pub mod commands;
pub mod drafts;
mod operations;
mod puts;
