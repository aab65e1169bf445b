//! The journal file: payloads behind a header, each in a frame with a gate byte. They are log
//! entries, and in format 2 bases among them, states that the log goes on from. An append or a
//! rebase writes the frame behind a closed gate, and opens the gate once the frame is synced; so a
//! crash at any moment leaves a file that opens, with the payload or without it. What opens gives
//! just the payloads that its bytes stand for, from the last base on, and what doesn't is refused
//! with the place of the damage. A journal of format 1 is made one of format 2 by one byte.
#![tactic(auto)]

mod append;
mod fault;
mod journal;
mod migration;
mod opening;
mod points;
mod read_ahead;
mod reading;

pub use fault::OpenFault;
pub use journal::Journal;
pub use migration::migrate;
