//! Sweeps.

use crate::cutoff::Resolved;
use cat_codes::seq::Seq;
use cat_names::hash::Hash;

/// A sweep as it is logged: what it kept follows from it, and with that what it removed.
#[derive(Drop)]
pub struct Sweep {
    /// The place at which it was opened. What was live at a place from there on was kept.
    pub opened: u32,
    /// How much of each chain was live.
    pub policy: Resolved,
    /// The commits that drafts named meanwhile. What is visible at them was kept.
    pub commits: Seq<Hash>,
    /// The contents that drafts named meanwhile, which were kept too.
    pub contents: Seq<Hash>,
}
