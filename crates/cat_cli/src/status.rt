//! How a run ended.

ghost use Rattle.std.specs.Prelude.{◌≡◌};
ghost use Rattle.cat_cli.specs.Runs.{code_of};

/// How a run ended.
#[derive(Clone, Copy, Debug, PartialEq, Eq, Drop)]
pub enum Status {
    /// The input was read to its end, or to a request that closes; or the listener's connections
    /// ended; or the command's line was told.
    Done,
    /// The words aren't the command's, or those of a collection aren't a policy.
    Usage,
    /// A disk failed, or the disks did.
    DiskFault,
    /// The journal has another version, or is damaged, or an entry of it isn't legal.
    Unreadable,
    NoMemory,
    /// The source failed.
    ReadFault,
    /// The sink failed.
    WriteFault,
    /// The listener failed, as it was told to listen or as it accepted.
    ListenerFault,
    /// The session ended before its input: after its last request, or at bytes that are no request.
    Cut,
    /// A collection was refused, as the catalogue has no room for its entry.
    Limit,
}

impl Status {
    /// The status of the process.
    pub fn code(self) -> u8
        ensures { result ≡ code_of self }
    {
        match self {
            Status::Done => 0,
            Status::Usage => 1,
            Status::DiskFault => 2,
            Status::Unreadable => 3,
            Status::NoMemory => 4,
            Status::ReadFault => 5,
            Status::WriteFault => 6,
            Status::ListenerFault => 7,
            Status::Cut => 8,
            Status::Limit => 9,
        }
    }
}
