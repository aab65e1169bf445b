//! Maps from content keys to entries, and the maps at commits. A map is seen as the list of its
//! keys and entries, keys ascending, and never changes: changes make a new map, which shares with
//! the old one all but the blocks that they meet, and copies share all. Each call answers what its
//! definition says of that list: look-ups and changes by searches, pages by a walk from where they
//! begin, and where two maps differ by a walk over both.
#![tactic(auto)]

mod among;
mod changing;
mod children;
mod differing;
pub mod distinct;
mod forming;
pub mod key_map;
pub mod listing;
pub mod maps;
mod named;
pub mod order;
mod range;
pub mod walk;
