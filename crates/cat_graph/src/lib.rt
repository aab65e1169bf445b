//! The commits of a catalogue, found by their hashes. A graph is seen as the definitions' list of
//! commits, the newest first, and is never changed: one with more commits shares with it those that
//! it has. Each call answers what its definition says of that list. No hash comes twice, each
//! commit stands above its parents, and its generation is one more than the greatest of theirs, so
//! a chain is walked by one look-up a commit, and the merge base of two commits is found from the
//! ancestors that are nearer than it.
#![tactic(auto)]

pub mod add_fault;
mod base;
mod front;
pub mod graph;
mod touched;
