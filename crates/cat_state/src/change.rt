//! What an accepted call makes of a catalogue.

use crate::additions::Additions;
use cat_model::reference::Reference;
use cat_names::ref_name::RefName;

/// What becomes of a reference.
#[derive(Drop)]
pub enum ReferenceChange {
    /// It is made; its name is new.
    Made(Reference),
    /// The one of its name is set to it.
    Moved(Reference),
    /// The one of the name is removed.
    Removed(RefName),
}

/// What an accepted call makes of a catalogue: what it adds, and what becomes of a reference.
#[derive(Drop)]
pub struct Change {
    pub additions: Additions,
    pub reference: ReferenceChange,
}
