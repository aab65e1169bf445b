//! Why a call is refused.

use crate::conflict::Conflict;
use crate::limits::Quantity;
use cat_codes::bytes::Bytes;
use cat_codes::seq::Seq;
use cat_names::hash::Hash;
use cat_names::key::ContentKey;
use thiserror::Error;

/// What is wrong with a request.
#[derive(Clone, Copy, Debug, PartialEq, Eq)]
pub enum Reason {
    BadHead,
    BadBody,
    BadQuery,
    BadPath,
    /// Commits are made on branches.
    NotABranch,
    /// The default branch stays.
    DefaultBranch,
    /// The type that was stated isn't the reference's.
    OtherType,
    /// The hashes aren't commits of which each is the parent of the next.
    NotConsecutive,
}

/// Why there is no content.
#[derive(Clone, Copy, Debug, PartialEq, Eq)]
pub enum Missing {
    /// The key isn't there.
    Absent,
    /// A sweep removed it.
    Expired,
}

/// The methods of a route.
#[derive(Clone, Copy, Debug, PartialEq, Eq)]
pub enum Allowed {
    Get,
    Post,
    GetPost,
    GetPutDelete,
}

/// Why a call is refused. A refused call leaves references, commits, contents and log as they
/// were.
#[derive(Debug, Drop, Error)]
pub enum Refusal {
    /// The request has no reading, or asks for what can't be done.
    #[error("the request has no reading, or asks for what can't be done")]
    BadRequest(Reason),
    /// No reference has the name, or the hash isn't on its chain, or isn't known.
    #[error("no reference has the name, or none of its commits the hash")]
    RefNotFound,
    /// A reference has the name already.
    #[error("a reference has the name already")]
    RefExists,
    #[error("there is no content")]
    ContentNotFound(Missing),
    /// What disagrees, keys ascending; never empty.
    #[error("keys disagree")]
    Conflicts(Seq<Conflict>),
    /// The keys whose contents were swept, ascending, and the place where the call began.
    #[error("contents were swept since the call began")]
    Expired {
        keys: Seq<ContentKey>,
        opened: u32,
    },
    /// The places and heads that the attempts were built on, and the last ones seen.
    #[error("each attempt met another call")]
    RetriesSpent(Seq<(u32, Hash)>),
    /// A sweep is open, since this place.
    #[error("a sweep is open since place {0}")]
    SweepOpen(u32),
    /// The catalogue is full.
    #[error("the catalogue is full")]
    Limit {
        which: Quantity,
        number: u64,
    },
    /// Two records of one hash, the one that is kept first.
    #[error("another record has the hash")]
    Collision {
        hash: Hash,
        first: Bytes,
        second: Bytes,
    },
    /// The journal couldn't be written.
    #[error("the journal couldn't be written")]
    Fault,
    /// The journal couldn't be written earlier; it had counted so many faults then.
    #[error("the journal couldn't be written earlier")]
    Down(u64),
    #[error("memory ran out")]
    NoMemory,
    /// No route has the path.
    #[error("no route has the path")]
    NoRoute,
    /// The route hasn't the method, but these.
    #[error("the route hasn't the method")]
    WrongMethod(Allowed),
    /// The body is too large.
    #[error("the body is too large")]
    TooLarge,
    /// The body is encoded.
    #[error("the body is encoded")]
    Encoding,
    /// The journal is of format 1, in which there are no checkpoints.
    #[error("the journal is of an old format")]
    OldFormat,
}

/// A refusal, and the place of the state that it was decided on; none where no state was looked at.
#[derive(Debug, Drop, Error)]
#[error("{why}")]
pub struct Refused {
    pub place: Option<u32>,
    pub why: Refusal,
}
