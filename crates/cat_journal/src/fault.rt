//! Why a journal could not be opened.

use thiserror::Error;

/// Why a journal could not be opened.
#[derive(Clone, Copy, Debug, PartialEq, Eq, Error)]
pub enum OpenFault {
    /// The disk failed, and counted it.
    #[error("the disk failed")]
    Fault,
    /// Another version than 1.
    #[error("the journal is of version {0}")]
    Version(u32),
    /// The offset of the first damage among what is read: the header, the gates and the lengths of
    /// the frames, the last base, and the entries behind it, one too many of which is damage too.
    /// That of a frame is the offset of its gate.
    #[error("the journal is damaged at offset {0}")]
    Damaged(u64),
    /// Memory ran out.
    #[error("memory ran out")]
    NoMemory,
}
