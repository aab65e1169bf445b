//! A value that callers take in turns. Each caller has a pass, which keeps what it has seen of the
//! value's log: always a beginning of the one log, with all of the caller's own entries, and legal
//! from where the desk began.
#![tactic(auto)]

mod desk;
mod gate;
mod hold;
mod pass;
mod plays;
mod view;
mod words;

pub use desk::Desk;
pub use gate::{Gate, NoGate};
pub use hold::Hold;
pub use pass::{Held, Pass};
pub use view::View;
