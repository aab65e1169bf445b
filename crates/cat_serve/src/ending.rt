//! How a session ended.

/// How a session ended. A fault of source or sink, or want of memory, stands in place of the
/// others.
#[derive(Clone, Copy, Drop)]
pub enum Session {
    /// The input ended between two requests, or a request asked for the end.
    Closed,
    /// As many requests were answered as a session answers.
    Capped,
    /// What came is no request.
    BadHead,
    /// The body of a request is too large.
    TooLarge,
    /// The source failed.
    ReadFault,
    /// The sink failed.
    WriteFault,
    NoMemory,
}
