//! Policies of collection: how much of the chain of each reference is kept, as words or JSON ask
//! for it. A text is a cutoff or a pattern exactly where its definition says so, with durations and
//! instants as `jiff` reads them; a policy has at most 1,000 patterns; and it is resolved at the
//! moment of a call, from which durations are taken back.
#![tactic(auto)]

mod given;
mod policy;
mod times;

pub use given::GivenCutoff;
pub use policy::{Policy, PolicyForm};
