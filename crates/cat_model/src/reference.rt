//! Named references, and how a request points at a commit.

use cat_names::hash::Hash;
use cat_names::ref_name::RefName;

/// What may be done with a reference: commits are made on branches alone.
#[derive(Clone, Copy, PartialEq, Eq)]
pub enum Kind {
    Branch,
    Tag,
}

/// A named reference and the commit that it points at.
#[derive(Clone, Drop)]
pub struct Reference {
    pub name: RefName,
    pub kind: Kind,
    pub head: Hash,
}

/// What a request points at: a reference's head, a hash on a reference's chain, or a hash alone.
/// At least one of the two is there.
#[derive(Clone, Drop)]
pub struct Pointer {
    pub name: Option<RefName>,
    pub hash: Option<Hash>,
}

/// The commit that a read asks for: so many commits back along the chain from the one that is
/// pointed at, 0 being that one itself.
#[derive(Drop)]
pub struct Position {
    pub from: Pointer,
    pub back: u32,
}

/// The commit that a read was answered at: a reference's, or one that no reference was named for.
#[derive(Drop)]
pub enum Effective {
    Named(Reference),
    Detached(Hash),
}
