//! What a merge of a source map into a target map does, given the map at their base: which keys the
//! source changed, what is found at each, the conflicts among them, the changes of the target, and
//! the map after those. Where there is no conflict, a target that is well-formed stays so; what
//! holds of each entry of source and target holds of each that is set, and of each of the map
//! after. And the same of many changes in turn, each planned on the map after the one before.
#![tactic(auto)]

mod deciding;
mod finding;
mod modes;
pub mod plan;
pub mod transplant;
