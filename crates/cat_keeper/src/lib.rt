//! What keeps the payloads of log entries, and among them bases, states that the log goes on from:
//! a trait with what a crash may leave of them at each moment, and a keeper in memory. An append or
//! a rebase that answers `Ok` stays through a crash; one that answers `Fault` may or may not, and
//! the keeper is down from then on. A keeper that is watched says what a crash might have left of
//! it over many calls.
#![tactic(auto)]

mod bases;
mod fault;
mod keeper;
mod memory_keeper;
mod watched;

pub use bases::base_place;
pub use fault::KeepFault;
pub use keeper::Keeper;
pub use memory_keeper::MemKeeper;
pub use watched::{Since, Watched};
