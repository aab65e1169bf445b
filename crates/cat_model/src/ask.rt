//! Calls that read the catalogue.

use crate::filter::Filter;
use crate::reference::Position;
use cat_codes::seq::Seq;
use cat_names::hash::Hash;
use cat_names::key::ContentKey;
use cat_names::ref_name::RefName;

/// A page of the references by ascending names: the first one, or the one after a name.
#[derive(Drop)]
pub struct ReferencesAsk {
    /// The most references of the page, 1 to 1,000.
    pub limit: u32,
    /// The last name of the page before.
    pub after: Option<RefName>,
}

/// A page of the entries at a commit, keys ascending: the first one, or the one after a key.
#[derive(Drop)]
pub struct EntriesAsk {
    pub at: Position,
    pub filter: Filter,
    /// The most entries of the page, 1 to 1,000.
    pub limit: u32,
    /// The commit that the first page was of, and the last key of the page before.
    pub after: Option<(Hash, ContentKey)>,
}

/// A page of a chain, the newest commit first: from the head, or from a commit.
#[derive(Drop)]
pub struct HistoryAsk {
    pub at: Position,
    /// The last commit that is asked for; none asks for the whole chain.
    pub until: Option<Hash>,
    /// Whether the operations of each commit are asked for.
    pub with_operations: bool,
    /// The most commits of the page, 1 to 1,000.
    pub limit: u32,
    /// The commit that the page before ended ahead of.
    pub from: Option<Hash>,
}

/// The contents of keys at a commit.
#[derive(Drop)]
pub struct ContentsAsk {
    pub at: Position,
    pub keys: Seq<ContentKey>,
}

/// The content of a key at a commit.
#[derive(Drop)]
pub struct ContentAsk {
    pub at: Position,
    pub key: ContentKey,
}

/// What a reading call asks for.
#[derive(Drop)]
pub enum Ask {
    /// What the server is: its versions, its default branch, the hash without ancestor.
    Config,
    References(ReferencesAsk),
    /// A reference, at its head or at a hash on its chain, or a commit alone, or one before these.
    Reference(Position),
    Entries(EntriesAsk),
    History(HistoryAsk),
    Contents(ContentsAsk),
    /// The content of one key.
    Content(ContentAsk),
}
