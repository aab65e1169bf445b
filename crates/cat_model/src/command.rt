//! Calls that change the catalogue.

use crate::commit::Meta;
use crate::content::Content;
use crate::merging::Modes;
use crate::op::Op;
use crate::reference::{Kind, Pointer};
use cat_codes::seq::Seq;
use cat_names::hash::Hash;
use cat_names::ref_name::RefName;

/// Makes a reference at a source.
#[derive(Drop)]
pub struct Create {
    pub name: RefName,
    pub kind: Kind,
    pub source: Pointer,
    /// What the request says of the source's kind; none for a source without a name. It isn't
    /// logged.
    pub source_kind: Option<Kind>,
}

/// Moves a reference to a source.
#[derive(Drop)]
pub struct Assign {
    pub name: RefName,
    /// What the request says of the reference's kind.
    pub kind: Option<Kind>,
    /// The head that the request was made against; none for any.
    pub expected: Option<Hash>,
    pub source: Pointer,
    /// What the request says of the source's kind; none for a source without a name. It isn't
    /// logged.
    pub source_kind: Option<Kind>,
}

/// Removes a reference.
#[derive(Drop)]
pub struct Delete {
    pub name: RefName,
    /// What the request says of the reference's kind.
    pub kind: Option<Kind>,
    /// The head that the request was made against; none for any.
    pub expected: Option<Hash>,
}

/// Commits operations on a branch.
#[derive(Drop)]
pub struct CommitRequest {
    pub branch: RefName,
    /// The commit that the request was made against; none for the branch's head.
    pub expected: Option<Hash>,
    pub meta: Meta,
    /// On distinct keys, in the request's order.
    pub ops: Seq<Op>,
    /// Those of the PUTs, in their order. A fresh one gets its id when its draft opens.
    pub contents: Seq<Content>,
}

/// Merges a commit of a reference into a branch.
#[derive(Drop)]
pub struct Merge {
    pub branch: RefName,
    /// A commit that has to be on the branch's chain; it has no other effect.
    pub hash: Option<Hash>,
    pub from: RefName,
    /// The commit to merge, on the chain of that reference.
    pub from_hash: Hash,
    /// That of the commit that the merge makes.
    pub meta: Meta,
    pub modes: Modes,
    /// Whether the call is only tried. It isn't logged.
    pub dry_run: bool,
    /// Whether conflicts are a reply and no refusal. It isn't logged.
    pub conflicts_as_result: bool,
}

/// Applies commits of a reference to a branch, one after another.
#[derive(Drop)]
pub struct Transplant {
    pub branch: RefName,
    /// A commit that has to be on the branch's chain; it has no other effect.
    pub hash: Option<Hash>,
    pub from: RefName,
    /// The commits to apply, the oldest first: at least one and at most 100.
    pub hashes: Seq<Hash>,
    pub modes: Modes,
    /// Whether the call is only tried. It isn't logged.
    pub dry_run: bool,
    /// Whether conflicts are a reply and no refusal. It isn't logged.
    pub conflicts_as_result: bool,
}

/// A call that may add an entry to the log.
#[derive(Drop)]
pub enum Command {
    Create(Create),
    Assign(Assign),
    Delete(Delete),
    Commit(CommitRequest),
    Merge(Merge),
    Transplant(Transplant),
}
