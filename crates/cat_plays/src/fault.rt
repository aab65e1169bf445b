//! Why a line of a file can't be played.

use std::alloc::{AllocError, AllocFailed};
use thiserror::Error;

/// Why a line can't be played.
#[derive(Debug, Drop, Error)]
pub enum Fault {
    #[error("memory ran out")]
    NoMemory,
    #[error("the line has no reading")]
    NoReading,
    #[error("the line stands before the first row")]
    NoRow,
    #[error("what was sent or wanted had no run")]
    NoRun,
    #[error("the lines of a `for` have no `end`")]
    NoEnd,
    #[error("there are fewer requests")]
    FewRequests,
    #[error("nothing gave the name {0}")]
    Unknown(String),
    #[error("the name {0} is given twice")]
    Twice(String),
    #[error("names stand for names without an end")]
    Endless,
}

impl From<AllocError> for Fault {
    fn from(_error: AllocError) -> Fault {
        Fault::NoMemory
    }
}

impl<T: Drop> From<AllocFailed<T>> for Fault {
    fn from(_error: AllocFailed<T>) -> Fault {
        Fault::NoMemory
    }
}
