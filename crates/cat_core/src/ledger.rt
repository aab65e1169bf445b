//! A ledger: a catalogue with its last draft number and the log that led to it, seen as a book of
//! the model. Each call answers what the model's call on the book does and leaves the book that it
//! leaves, once the keeper that it is given has its entry; or makes nothing, for want of memory or
//! for a fault of the keeper, which leave state and log as they were. What a call comes to is
//! decided on the catalogue as it stands, and carried out then. The call of an entry may be made
//! again, in the entry's own draft. The log starts from the empty catalogue, or from that of a
//! checkpoint.

ghost use Rattle.std.specs.Prelude.{◌≡◌, ◌≤◌, [], None, true, false, IfOk, IfSome, IsTrue, length, reverse};
ghost use Rattle.sha2.specs.Sha256.{sha256};
ghost use Rattle.cat_codes.specs.Code.{keys_ascend};
ghost use Rattle.cat_frames.specs.Bases.{state_in};
ghost use Rattle.cat_frames.specs.Checkpoints.{by_hash};
ghost use Rattle.cat_model.specs.Book.{first_book};
ghost use Rattle.cat_model.specs.Resuming.{last_draft};
ghost use Rattle.cat_frames.specs.Standing.{may_start};
ghost use Rattle.cat_tables.specs.References.{names_ascend};
ghost use Rattle.cat_model.specs.Pages.{first};
ghost use Rattle.std.specs.Option.{option_copied};

mod calls;
mod carrying;
mod collecting;
mod counts;
mod drafting;
mod logging;
mod making;
mod remaking;
mod replaying;
mod sweeping;

pub(crate) use calls::refused;
use cat_codes::fault::NoMemory;
use cat_frames::Checkpoint;
use cat_model::limits::Limits;
use cat_model::log_entry::LogEntry;
use cat_state::catalogue::Catalogue;
use cat_state::shared::SharedCatalogue;
use cat_state::view::View;
use std::alloc::Global;
use std::marker::Model;

/// A catalogue in memory, which views may share, with the entries that led to it from another.
#[derive(Drop)]
pub struct Ledger {
    pub(crate) catalogue: SharedCatalogue,
    pub(crate) draft: u64,
    pub(crate) log: Vec<LogEntry>,
    /// The catalogue that the log starts from. What it shares with the other takes no memory.
    pub(crate) base: View,
}

impl Model for Ledger {
    ghost use Rattle.cat_model.specs.Book.{Book};

    ghost Value = { Book };

    ghost use Rattle.std.specs.Prelude.{reverse};

    ghost view = { λ s. record {
      state = s.catalogue;
      draft = s.draft;
      log = reverse s.log.items;
      base = s.base;
    } };
}

/// The greatest draft number of entries, or this one, where it is greater.
fn last_of(entries: &[LogEntry], start: u64) -> u64
    ensures { result ≡ last_draft start entries.now }
{
    let mut last = start;
    for entry in entries {
        last = last.max(entry.draft);
    }
    last
}

impl Ledger {
    /// The ledger of a catalogue that a log starts from, where this draft number was the last.
    fn start(alloc: Global, catalogue: SharedCatalogue, draft: u64) -> Result<Ledger, NoMemory>
        ensures { IfOk result
            (λ ledger. ledger
            ≡ record { state = catalogue; draft = draft; log = []; base = catalogue }) }
    {
        let base = catalogue.view()?;
        Ok(Ledger {
            catalogue,
            draft,
            log: Vec::new(alloc),
            base,
        })
    }

    /// The ledger of an empty catalogue: the branch `main` without a commit.
    pub fn new(alloc: Global, limits: Limits) -> Result<Ledger, NoMemory>
        requires log { limits.log ≤ 4294967295 }
        requires commits { limits.commits ≤ 4294967295 }
        ensures { IfOk result (λ ledger. ledger ≡ first_book sha256 limits) }
    {
        Ledger::start(alloc, SharedCatalogue::new(alloc, limits)?, 0)
    }

    /// The ledger of the catalogue that a checkpoint tells of, unless no log may start from it.
    pub fn from_checkpoint(
        alloc: Global,
        limits: Limits,
        checkpoint: Checkpoint,
    ) -> Result<Option<Ledger>, NoMemory>
        requires log { limits.log ≤ 4294967295 }
        requires commits { limits.commits ≤ 4294967295 }
        requires names { IsTrue (names_ascend checkpoint.references) }
        requires hashes { IsTrue (keys_ascend by_hash None checkpoint.contents) }
        ensures started { IfOk result
            (λ found. IfSome found
            (λ ledger. (may_start sha256 (state_in limits checkpoint) ≡ true)
            × (ledger
            ≡ record {
              state = state_in limits checkpoint;
              draft = checkpoint.draft;
              log = [];
              base = state_in limits checkpoint;
            }))) }
        ensures refused { IfOk result
            (λ found. found ≡ None → may_start sha256 (state_in limits checkpoint) ≡ false) }
    {
        let draft = checkpoint.draft;
        match Catalogue::from_checkpoint(alloc, limits, checkpoint)? {
            None => Ok(None),
            Some(catalogue) => {
                let shared = SharedCatalogue::of(alloc, catalogue)?;
                Ok(Some(Ledger::start(alloc, shared, draft)?))
            }
        }
    }

    /// The place of the catalogue that the log starts from.
    pub fn first(&self) -> u32
        ensures { result ≡ self.now.base.place }
    {
        self.base.place()
    }

    /// How many entries there are.
    pub fn len(&self) -> usize
        ensures { result ≡ length self.now.log }
    {
        self.log.len()
    }

    /// The greatest draft number of the entries, or this one, where it is greater.
    #[tactic(auto, using(crate::proofs::LastDraft::last_turned))]
    pub fn last_logged(&self, start: u64) -> u64
        ensures { result ≡ last_draft start (reverse self.now.log) }
    {
        last_of(self.log.as_slice(), start)
    }

    /// The newest entry of the log.
    #[tactic(auto, using(crate::proofs::Newest::newest_is))]
    pub fn last(&self) -> Option<&LogEntry>
        ensures { option_copied result ≡ first self.now.log }
    {
        self.log.as_slice().last()
    }

    /// A view of the catalogue as it is now. While it is held, a change of the ledger copies the
    /// catalogue first.
    pub fn view(&self) -> Result<View, NoMemory>
        ensures { IfOk result (λ view. view ≡ self.now.state) }
    {
        self.catalogue.view()
    }

    /// The catalogue.
    pub fn catalogue(&self) -> &Catalogue
        ensures { result.now ≡ self.now.state }
    {
        self.catalogue.get()
    }

    /// The last draft number.
    pub fn draft(&self) -> u64
        ensures { result ≡ self.now.draft }
    {
        self.draft
    }
}
