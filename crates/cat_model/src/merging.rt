//! How a merge or a transplant treats each key that its source changed.

use crate::conflict::ConflictKind;
use cat_codes::ascending::Ascending;
use cat_names::key::ContentKey;

/// What a merge does with a key that the source changed since the base, by the names of the REST
/// API.
#[derive(Clone, Copy, PartialEq, Eq)]
pub enum Behaviour {
    /// Takes the source's entry where the target still has the base's, else the key conflicts.
    Normal,
    /// Takes the source's entry.
    Force,
    /// Leaves the target's entry.
    Drop,
}

/// The behaviour of the keys that have one of their own, and that of all others.
#[derive(Clone, Drop)]
pub struct Modes {
    pub default: Behaviour,
    pub keys: Ascending<ContentKey, Behaviour>,
}

/// What a merge found at a key that the source changed.
#[derive(Clone, Drop)]
pub struct Detail {
    pub key: ContentKey,
    pub behaviour: Behaviour,
    /// Why the key can't be merged so.
    pub conflict: Option<ConflictKind>,
}
