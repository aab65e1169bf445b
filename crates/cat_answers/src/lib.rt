//! What reading calls answer on a catalogue at one place of its log: the model's answer at its
//! state, page by page, a refusal with its cause, or want of memory. Nothing is changed.
#![tactic(auto)]

mod answering;
mod histories;
mod keyed;
mod listing;
mod turning;

pub use answering::answer;
