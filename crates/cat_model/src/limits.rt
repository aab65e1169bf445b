//! How much a catalogue holds.

/// What is limited.
#[derive(Clone, Copy, Debug, PartialEq, Eq)]
pub enum Quantity {
    /// Named references.
    References,
    /// Entries of the log.
    Log,
    /// Commits.
    Commits,
    /// Keys of a branch's map.
    Keys,
    /// Contents that are held.
    Contents,
    /// Names that drafts give an open sweep.
    Names,
    /// Drafts since the first journal of the catalogue.
    Drafts,
    /// Bytes of a checkpoint.
    Checkpoint,
}

/// The most of each quantity.
#[derive(Clone, Copy)]
pub struct Limits {
    pub references: u64,
    pub log: u64,
    pub commits: u64,
    pub keys: u64,
    pub contents: u64,
    pub names: u64,
    pub drafts: u64,
}

impl Limits {
    ghost use Rattle.std.specs.Prelude.{◌≡◌};
    ghost use Rattle.cat_model.specs.Limits.{program_limits};

    /// The program's limits; of no catalogue are the log's or the commits' greater.
    pub fn program() -> Limits
        ensures { result ≡ program_limits }
    {
        Limits {
            references: 65_535,
            log: 4_294_967_295,
            commits: 4_294_967_295,
            keys: 1_000_000,
            contents: 16_777_216,
            names: 16_777_216,
            drafts: 18_446_744_073_709_551_615,
        }
    }
}
