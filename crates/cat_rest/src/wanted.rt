//! What a request wants.

use cat_model::ask::Ask;
use cat_model::command::Command;
use cat_policy::Policy;

/// A reading call, a changing one, a collection by a policy, or a checkpoint.
#[derive(Drop)]
pub enum Wanted {
    Read(Ask),
    Change(Command),
    Collect(Policy),
    Checkpoint,
}
