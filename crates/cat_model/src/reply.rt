//! Replies.

use crate::commit::Meta;
use crate::content::Content;
use crate::entry::Entry;
use crate::merging::Detail;
use crate::moment::Moment;
use crate::reference::{Effective, Reference};
use cat_codes::seq::Seq;
use cat_names::hash::{ContentId, Hash};
use cat_names::key::ContentKey;
use cat_names::ref_name::RefName;

/// A page of references.
#[derive(Drop)]
pub struct ReferencesPage {
    /// By ascending names.
    pub items: Seq<Reference>,
    /// The last name of the page; none where no reference follows.
    pub next: Option<RefName>,
}

/// A page of the entries at a commit.
#[derive(Drop)]
pub struct EntriesPage {
    pub effective: Effective,
    /// Keys ascending.
    pub items: Seq<(ContentKey, Entry)>,
    /// The commit and the last key of the page; none where no entry follows.
    pub next: Option<(Hash, ContentKey)>,
}

/// A change that a commit made.
#[derive(Drop)]
pub enum Change {
    /// A key was set, to a content that the catalogue may hold no longer.
    Put(ContentKey, Option<Content>),
    /// A key was deleted.
    Delete(ContentKey),
}

/// A commit of a history.
#[derive(Drop)]
pub struct HistoryItem {
    pub hash: Hash,
    pub parent: Hash,
    pub merge_parent: Option<Hash>,
    pub time: Moment,
    pub meta: Meta,
    /// What it changed, keys ascending, where that was asked for.
    pub operations: Option<Seq<Change>>,
}

/// A page of a chain.
#[derive(Drop)]
pub struct HistoryPage {
    /// The newest commit first.
    pub items: Seq<HistoryItem>,
    /// The commit after the page; none where none follows.
    pub next: Option<Hash>,
}

/// The contents of keys, and the commit that they were read at.
#[derive(Drop)]
pub struct ContentsReply {
    pub effective: Effective,
    /// In the order in which they were asked for, without keys that have none.
    pub contents: Seq<(ContentKey, Content)>,
}

/// A content, and the commit that it was read at.
#[derive(Drop)]
pub struct ContentReply {
    pub effective: Effective,
    pub content: Content,
}

/// The ids that the server gave, in the request's order, and the branch with its new head.
#[derive(Drop)]
pub struct Committed {
    pub added: Seq<(ContentId, ContentKey)>,
    pub target: Reference,
}

/// What a merge or a transplant did or found.
#[derive(Drop)]
pub struct Merged {
    /// The commit that changes were reckoned from, for a merge.
    pub common_ancestor: Option<Hash>,
    /// Of each key that the source changed, ascending; of a transplant those of one commit after
    /// the other.
    pub details: Seq<Detail>,
    /// The head that was merged into.
    pub effective_target: Hash,
    /// The branch with the head that it has then.
    pub target: Reference,
    /// Whether a commit was made.
    pub was_applied: bool,
    /// Whether no key conflicts.
    pub was_successful: bool,
}

/// What a sweep did.
#[derive(Drop)]
pub struct Swept {
    /// How many contents there are then.
    pub kept: u64,
    /// The place at which it was opened.
    pub opened: u32,
    /// How many contents it removed.
    pub removed: u64,
}

/// What a call answers.
#[derive(Drop)]
pub enum Reply {
    Config,
    References(ReferencesPage),
    Effective(Effective),
    Entries(EntriesPage),
    History(HistoryPage),
    Contents(ContentsReply),
    Content(ContentReply),
    /// A reference that was made, moved, or removed: as it is, or as it was.
    Reference(Reference),
    Committed(Committed),
    Merged(Merged),
    Swept(Swept),
    /// The place of the state that was written into the journal.
    Checkpoint(u32),
}

/// A reply, at the place of its entry, or of the state that was read.
#[derive(Drop)]
pub struct Told {
    pub place: u32,
    pub reply: Reply,
}
