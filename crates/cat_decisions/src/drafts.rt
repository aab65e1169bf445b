//! What calls plan before anything is tested.

use cat_merge::plan::Planned;
use cat_model::command::Command;
use cat_names::hash::Hash;

/// What a merge or a transplant asks beside its change.
#[derive(Clone, Copy)]
pub(crate) struct Asked {
    /// The call is only tried: nothing is changed.
    pub(crate) dry_run: bool,
    /// Conflicts are told in the reply, and don't refuse the call.
    pub(crate) conflicts_as_result: bool,
}

/// What a call plans upon the head of a branch.
#[derive(Drop)]
pub struct Draft {
    /// The common ancestor that a merge's changes are computed from; none for a transplant.
    pub(crate) ancestor: Option<Hash>,
    /// The commits, each upon the one before.
    pub(crate) planned: Vec<Planned>,
    pub(crate) asked: Asked,
    /// The call as it is logged.
    pub(crate) command: Command,
}
