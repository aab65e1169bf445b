//! A catalogue at one place of its log: its references, its commits with the map at each, and its
//! contents. It is seen as a state of the model. It finds what a request points at, says what
//! stands in the way of a change and what a call adds, the commits of many plans too, and takes a
//! change whole or not at all: the catalogue after it is made and the keeper keeps its entry first,
//! and then the one takes the other's place, which can't fail and takes no memory. So each change
//! leaves the state that the model's step leaves, or the state as it was. It is
//! written into checkpoints, and made from one where a log may start there. The map at each commit is
//! well-formed, each reference points at a commit or at the hash that has no ancestor, and no limit
//! is passed.
#![tactic(auto)]

mod adding;
pub mod additions;
pub mod catalogue;
pub mod change;
pub mod checkpointing;
pub mod contents;
pub mod copies;
pub mod counts;
pub mod failure;
mod finding;
mod keeping;
mod making;
mod merging;
mod needing;
mod planned;
mod pointing;
pub mod records;
mod room;
pub mod shared;
pub mod starting;
pub mod unmade;
pub mod view;
