//! A log, executed again.

ghost use Rattle.std.specs.Prelude.{◌≡◌, ◌≤◌, ◌<◌, ◌&&◌, ◌||◌, [], Ok, Some, IfOk, IsTrue, bytes_eq};
ghost use Rattle.sha2.specs.Sha256.{sha256};
ghost use Rattle.cat_checks.specs.Legal.{draft_is_new, draft_may_come, has_its_draft, replayed_call};
ghost use Rattle.cat_codes.specs.Code.{whole};
ghost use Rattle.cat_frames.specs.Entries.{is_logged, log_entry_code, of_nobody};
ghost use Rattle.cat_mark.specs.Marks.{is_marked};
ghost use Rattle.cat_model.specs.declared.log_entry.Action.TheVariants as actions;
ghost use Rattle.cat_model.specs.Base.{is_among};
ghost use Rattle.cat_model.specs.State.{reference_of};
ghost use Rattle.cat_model.specs.WellMade.{is_well_made};
ghost use Rattle.cat_names.specs.declared.hash.Hash.{Hash};
ghost use Rattle.cat_state.specs.Kept.{spelling};
ghost use Rattle.cat_core.specs.Opening as opening;
ghost use Rattle.cat_core.specs.Opening.{Adds, AreDrafts, NewestIsLogged, ReadsAs, ReadsNewest, RunsAgain};
ghost use Rattle.cat_core.specs.Replays.{replayed_from};
ghost use Rattle.cat_core.specs.Sweeping as sweeping;
ghost use Rattle.cat_core.specs.Sweeping.{AreRemoved, IsFollowed, Removes, TakesOne, name_in, saved_on};

use crate::judging::may_be_done;
use crate::ledger::Ledger;
use crate::marking::marks_of;
use crate::tickets::Start;
use cat_checks::drafts::has_its_draft;
use cat_codes::fault::{FieldFault, NoMemory};
use cat_frames::{from_bytes, to_bytes};
use cat_mark::Marks;
use cat_model::command::Command;
use cat_model::log_entry::{Action, LogEntry};
use cat_model::reference::Reference;
use cat_model::sweep::Sweep;
use cat_names::hash::Hash;
use cat_names::ref_name::RefName;
use cat_state::catalogue::Catalogue;
use cat_state::failure::Failure;
use cat_state::shared::SharedCatalogue;
use std::alloc::Global;
use std::collections::HashSet;

/// A ledger that the payloads of a log led to, what is held of the log before it, and the draft
/// numbers of its entries.
#[derive(Drop)]
pub(crate) struct Replay {
    pub(crate) ledger: Ledger,
    pub(crate) start: Start,
    pub(crate) drafts: HashSet<u64>,
    /// Of each entry the reference that it moved or removed, as it was before, so that a sweep
    /// finds what was live since its opening. None for an entry that made a reference, and for a
    /// sweep.
    pub(crate) taken: Vec<Option<Reference>>,
    /// An empty catalogue, which takes the place of the ledger's while that is changed.
    pub(crate) spare: SharedCatalogue,
}

/// The entry that bytes spell, if they spell one.
fn read(alloc: Global, payload: &[u8]) -> Result<Option<LogEntry>, NoMemory>
    ensures { IfOk result (ReadsAs payload.now) }
{
    match from_bytes(alloc, payload) {
        Ok(entry) => Ok(Some(entry)),
        Err(FieldFault::NoMemory) => Err(NoMemory),
        Err(_) => Ok(None),
    }
}

/// Makes the call of an entry again: whether it is accepted with a change.
fn run_again(
    alloc: Global,
    ledger: &mut Ledger,
    spare: &SharedCatalogue,
    entry: &LogEntry,
    command: &Command,
) -> Result<bool, NoMemory>
    requires call { entry.now.action ≡ actions.Call command.now }
    requires well_made { IsTrue (is_well_made sha256 command.now) }
    requires own_draft { IsTrue (has_its_draft entry.now) }
    ensures { IfOk result
        (RunsAgain (replayed_call sha256 ledger.old entry.now) ledger.old ledger.new) }
{
    let place = ledger.place();
    match ledger.replay(alloc, spare, entry, command) {
        // What was told is let go by a call, so that the proof doesn't take each kind of it apart.
        Ok(told) => {
            drop(told);
            Ok(place < ledger.place())
        }
        Err(Failure::Refused(why)) => {
            drop(why);
            Ok(false)
        }
        Err(Failure::NoMemory) => Err(NoMemory),
    }
}

/// Whether an entry is spelled so. What is, is read back as the entry, of nobody.
#[tactic(auto, using(crate::proofs::Following::read_alike))]
fn is_spelled(alloc: Global, entry: &LogEntry, payload: &[u8]) -> Result<bool, NoMemory>
    requires { IsTrue (is_logged sha256 entry.now) }
    ensures spelled { IfOk result (λ b. b ≡ bytes_eq (spelling entry.now) payload.now) }
    ensures read { IfOk result
        (λ b. IsTrue b
        → whole (log_entry_code sha256) payload.now ≡ Ok (of_nobody entry.now)) }
{
    let bytes = to_bytes(alloc, entry)?;
    Ok(bytes.as_slice() == payload)
}

/// Whether the newest entry of the log is spelled so.
#[tactic(auto, using(crate::proofs::Following::newest_read))]
fn is_newest(alloc: Global, ledger: &Ledger, payload: &[u8]) -> Result<bool, NoMemory>
    requires { NewestIsLogged ledger.now.log }
    ensures newest { IfOk result (λ b. b ≡ opening.is_newest ledger.now.log payload.now) }
    ensures read { IfOk result (λ b. IsTrue b → ReadsNewest ledger.now.log payload.now) }
{
    match ledger.last() {
        None => Ok(false),
        Some(entry) => is_spelled(alloc, entry, payload),
    }
}

/// The name of the reference that a command makes, moves or removes.
pub(crate) fn name_in(command: &Command) -> &RefName
    ensures { result.now ≡ name_in command.now }
{
    match command {
        Command::Create(create) => &create.name,
        Command::Assign(assign) => &assign.name,
        Command::Delete(delete) => &delete.name,
        Command::Commit(request) => &request.branch,
        Command::Merge(merge) => &merge.branch,
        Command::Transplant(transplant) => &transplant.branch,
    }
}

/// The reference that a command moves or removes, as it is before.
fn reference_in(catalogue: &Catalogue, command: &Command) -> Result<Option<Reference>, NoMemory>
    ensures { IfOk result
        (λ found. found ≡ reference_of catalogue.now.references (name_in command.now)) }
{
    match catalogue.references().get(name_in(command)) {
        None => Ok(None),
        Some(reference) => Ok(Some(reference.clone()?)),
    }
}

/// Whether there is room for a sweep: for an entry, and for so many names in it.
fn has_room(catalogue: &Catalogue, sweep: &Sweep) -> bool
    ensures { result ≡ sweeping.has_room catalogue.now sweep.now }
{
    sweep.commits.known();
    sweep.contents.known();
    let limits = catalogue.limits();
    let names = sweep.commits.len() as u64 + sweep.contents.len() as u64;
    u64::from(catalogue.place()) < limits.log && names <= limits.names
}

impl Replay {
    /// A ledger without entries, and what is held of the log before it.
    pub(crate) fn new(alloc: Global, ledger: Ledger, start: Start) -> Result<Replay, NoMemory>
        requires none { ledger.log ≡ [] }
        requires here { ledger.base ≡ ledger.state }
        ensures ledger { IfOk result (λ replay. replay.ledger ≡ ledger) }
        ensures start { IfOk result (λ replay. replay.start ≡ start) }
        ensures followed { IfOk result
            (λ replay. IsFollowed replay.drafts.keys replay.taken.items replay.ledger) }
    {
        let spare = SharedCatalogue::new(alloc, ledger.catalogue().limits())?;
        Ok(Replay {
            ledger,
            start,
            drafts: HashSet::new(alloc),
            taken: Vec::new(alloc),
            spare,
        })
    }

    /// Whether the number is 0 or above the last one before the log, or a draft of it was open
    /// then.
    fn may_come(&self, draft: u64) -> bool
        ensures { result ≡ draft_may_come (replayed_from self.now) draft }
    {
        draft == 0 || self.start.draft < draft || self.start.drafts.as_slice().contains(&draft)
    }

    /// Whether the number is 0, or no entry has it.
    fn is_new(&self, draft: u64) -> bool
        requires { AreDrafts self.now.drafts.keys self.now.ledger.log }
        ensures { result ≡ draft_is_new self.now.ledger.log draft }
    {
        draft == 0 || !self.drafts.contains(&draft)
    }

    /// Whether the entry may follow, but for what its action brings.
    fn may_follow(&self, alloc: Global, entry: &LogEntry) -> Result<bool, NoMemory>
        requires { AreDrafts self.now.drafts.keys self.now.ledger.log }
        ensures { IfOk result
            (λ b. b ≡ opening.may_follow (replayed_from self.now) self.now.ledger entry.now) }
    {
        Ok(
            self.may_come(entry.draft)
                && may_be_done(alloc, &self.ledger, &entry.action)?
                && has_its_draft(entry)
                && self.is_new(entry.draft),
        )
    }

    /// Makes the call of an entry again, and keeps what it took: whether it is accepted with a
    /// change.
    fn call_again(
        &mut self,
        alloc: Global,
        entry: &LogEntry,
        command: &Command,
    ) -> Result<bool, NoMemory>
        requires call { entry.now.action ≡ actions.Call command.now }
        requires well_made { IsTrue (is_well_made sha256 command.now) }
        requires own_draft { IsTrue (has_its_draft entry.now) }
        ensures runs { IfOk result
            (RunsAgain (replayed_call sha256 self.old.ledger entry.now) self.old.ledger
            self.new.ledger) }
        ensures takes { IfOk result
            (λ ran. IsTrue ran
            → TakesOne self.old.ledger self.new.ledger self.old.taken.items self.new.taken.items) }
        ensures drafts { self.new.drafts ≡ self.old.drafts }
        ensures start { self.new.start ≡ self.old.start }
    {
        let references = self.ledger.catalogue().references();
        references.known();
        let found = reference_in(self.ledger.catalogue(), command)?;
        let ran = run_again(alloc, &mut self.ledger, &self.spare, entry, command)?;
        if ran {
            self.taken.push(found)?;
        }
        Ok(ran)
    }

    /// What a sweep keeps, as marks.
    fn marks(&self, alloc: Global, sweep: &Sweep) -> Result<Marks, NoMemory>
        requires followed { IsFollowed self.now.drafts.keys self.now.taken.items self.now.ledger }
        requires since { self.now.ledger.base.place ≤ sweep.now.opened }
        requires opened { sweep.now.opened ≤ self.now.ledger.state.place }
        ensures { IfOk result
            (λ marks. (hash : Hash)
            → is_marked marks.set hash ≡ is_among (saved_on self.now.ledger sweep.now) hash) }
    {
        let catalogue = self.ledger.catalogue();
        let _ = catalogue.commits();
        let _ = catalogue.references();
        marks_of(
            alloc,
            catalogue,
            self.ledger.first(),
            self.taken.as_slice(),
            sweep,
        )
    }

    /// The hashes of the contents that a sweep removes.
    fn removed(&self, alloc: Global, sweep: &Sweep) -> Result<Vec<Hash>, NoMemory>
        requires followed { IsFollowed self.now.drafts.keys self.now.taken.items self.now.ledger }
        requires since { self.now.ledger.base.place ≤ sweep.now.opened }
        requires opened { sweep.now.opened ≤ self.now.ledger.state.place }
        ensures { IfOk result
            (λ hashes. AreRemoved self.now.ledger sweep.now hashes.items) }
    {
        let marks = self.marks(alloc, sweep)?;
        marks.unmarked(alloc, self.ledger.catalogue().contents())
    }

    /// Makes a sweep again, which removes the contents of these hashes. Its entry is the one that
    /// is logged for it, whatever else was read.
    fn sweep_again(
        &mut self,
        alloc: Global,
        entry: LogEntry,
        hashes: Vec<Hash>,
    ) -> Result<bool, NoMemory>
        requires own_draft { IsTrue (has_its_draft entry) }
        requires removes { Removes self.old.ledger entry hashes.items }
        ensures runs { IfOk result
            (RunsAgain (replayed_call sha256 self.old.ledger entry) self.old.ledger
            self.new.ledger) }
        ensures takes { IfOk result
            (λ ran. IsTrue ran
            → TakesOne self.old.ledger self.new.ledger self.old.taken.items self.new.taken.items) }
        ensures drafts { self.new.drafts ≡ self.old.drafts }
        ensures start { self.new.start ≡ self.old.start }
    {
        let catalogue = self.ledger.catalogue();
        let _ = catalogue.limits();
        let _ = catalogue.references();
        let place = catalogue.place() + 1;
        let LogEntry { moment, action, .. } = entry;
        let logged = LogEntry {
            place,
            caller: 0,
            draft: 0,
            moment,
            action,
            head: None,
        };
        self.ledger.sweep_again(alloc, logged, hashes.as_slice())?;
        self.taken.push(None)?;
        Ok(true)
    }

    /// Executes an entry again: whether it brings an entry.
    fn run(&mut self, alloc: Global, entry: LogEntry) -> Result<bool, NoMemory>
        requires followed { IsFollowed self.old.drafts.keys self.old.taken.items self.old.ledger }
        requires may { IsTrue
            (opening.may_follow (replayed_from self.old) self.old.ledger entry) }
        ensures runs { IfOk result
            (RunsAgain (replayed_call sha256 self.old.ledger entry) self.old.ledger
            self.new.ledger) }
        ensures takes { IfOk result
            (λ ran. IsTrue ran
            → TakesOne self.old.ledger self.new.ledger self.old.taken.items self.new.taken.items) }
        ensures drafts { self.new.drafts ≡ self.old.drafts }
        ensures start { self.new.start ≡ self.old.start }
    {
        match &entry.action {
            Action::Call(command) => {
                let ran = self.call_again(alloc, &entry, command);
                drop(entry);
                ran
            }
            Action::Sweep(sweep) => {
                if !has_room(self.ledger.catalogue(), sweep) {
                    drop(entry);
                    return Ok(false);
                }
                match self.removed(alloc, sweep) {
                    Ok(hashes) => self.sweep_again(alloc, entry, hashes),
                    Err(_) => {
                        drop(entry);
                        Err(NoMemory)
                    }
                }
            }
        }
    }

    /// Adds an entry, executed again; false where it may not follow.
    fn follow(&mut self, alloc: Global, entry: LogEntry, payload: &[u8]) -> Result<bool, NoMemory>
        requires followed { IsFollowed self.old.drafts.keys self.old.taken.items self.old.ledger }
        requires reads { ReadsAs payload.now (Some entry) }
        requires may { IsTrue
            (opening.may_follow (replayed_from self.old) self.old.ledger entry) }
        ensures adds { IfOk result
            (Adds (replayed_from self.old) self.old.ledger self.new.ledger payload.now) }
        ensures from { IfOk result
            (λ added. IsTrue added → replayed_from self.new ≡ replayed_from self.old) }
        ensures followed { IfOk result
            (λ added. IsTrue added
            → IsFollowed self.new.drafts.keys self.new.taken.items self.new.ledger) }
    {
        let draft = entry.draft;
        if !self.run(alloc, entry)? {
            return Ok(false);
        }
        if !is_newest(alloc, &self.ledger, payload)? {
            return Ok(false);
        }
        self.drafts.insert(draft)?;
        Ok(true)
    }

    /// Adds the entry that a payload spells; false where it spells none, or its entry may not
    /// follow.
    pub(crate) fn add(&mut self, alloc: Global, payload: &[u8]) -> Result<bool, NoMemory>
        requires followed { IsFollowed self.old.drafts.keys self.old.taken.items self.old.ledger }
        ensures adds { IfOk result
            (Adds (replayed_from self.old) self.old.ledger self.new.ledger payload.now) }
        ensures from { IfOk result
            (λ added. IsTrue added → replayed_from self.new ≡ replayed_from self.old) }
        ensures followed { IfOk result
            (λ added. IsTrue added
            → IsFollowed self.new.drafts.keys self.new.taken.items self.new.ledger) }
    {
        match read(alloc, payload)? {
            None => Ok(false),
            Some(entry) => match self.may_follow(alloc, &entry) {
                Ok(true) => self.follow(alloc, entry, payload),
                Ok(false) => {
                    drop(entry);
                    Ok(false)
                }
                Err(_) => {
                    drop(entry);
                    Err(NoMemory)
                }
            },
        }
    }
}
