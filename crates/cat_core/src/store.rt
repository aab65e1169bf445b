//! The store.

ghost use Rattle.std.specs.Prelude.{ℕ, List, ◌≡◌, ◌≢◌, ◌≤◌, [], ◌∷◌, ◌++◌, Some, None, length, reverse, IfErr, IfOk, IfSome, IsTrue, MatchResult};
ghost use Rattle.std.specs.Option.{option_map};
ghost use Rattle.sha2.specs.Sha256.{sha256};
ghost use Rattle.cat_checks.specs.Histories.{IsLegalFrom, book_at};
ghost use Rattle.cat_checks.specs.Upheld.{Upholds};
ghost use Rattle.cat_model.specs.Book.{Reads, first_book};
ghost use Rattle.cat_model.specs.Chain.{entries};
ghost use Rattle.cat_model.specs.Drafts.{nothing_open};
ghost use Rattle.cat_model.specs.Maps.{entry_of};
ghost use Rattle.cat_model.specs.declared.log_entry.LogEntry.{LogEntry};
ghost use Rattle.cat_model.specs.Mark.{FailedAppend, new_mark};
ghost use Rattle.cat_model.specs.Turns.{Opened};
ghost use Rattle.cat_frames.specs.Bases.{from_nothing};
ghost use Rattle.cat_io.specs.Causes.{Rose};
ghost use Rattle.cat_keeper.specs.Bases.{bases_in};
ghost use Rattle.cat_keeper.specs.Keeping.{is_format};
ghost use Rattle.cat_state.specs.Counting.{main_head};
ghost use Rattle.cat_state.specs.Kept.{reached};
ghost use Rattle.cat_core.specs.Lasting.{AreLasting, IsHolding};
ghost use Rattle.cat_core.specs.Opening.{IsIllegalAt, IsLedTo, OpenThrough, Opens, WasRead};
ghost use Rattle.cat_core.specs.Records.{GoesOn, StandFlown, StandFor, StandThrough};
ghost use Rattle.cat_graph.specs.Linked.{AreLinked};
ghost use Rattle.cat_core.specs.Stored.{IsMarked, IsSound, KnowsNames, MayBeDown, faults_at, is_headed, log_of, opened_held, opened_of};
ghost use Rattle.cat_core.specs.Sweeps.{MayBeClosed};

use crate::ledger::Ledger;
use crate::opening::{StoreFault, led_to};
use crate::tickets::{ClosedSweep, Fallen, OpenDraft, OpenSweep, Start, Ticket};
use cat_codes::fault::NoMemory;
use cat_keeper::Keeper;
use cat_model::ask::Ask;
use cat_model::entry::Entry;
use cat_model::limits::Limits;
use cat_model::logged::Logged;
use cat_model::refusal::Refused;
use cat_model::reply::Told;
use cat_names::key::ContentKey;
use cat_state::counts::Counts;
use std::alloc::Global;
use std::marker::Model;

/// A catalogue in memory, what keeps the entries that led to it, and the drafts that are open. Each
/// entry is kept before its change is seen. After an append or a checkpoint that fails the store is
/// down: it reads on, and makes no call.
#[derive(Drop)]
pub struct Store<K: Keeper> {
    pub(crate) ledger: Ledger,
    pub(crate) keeper: K,
    pub(crate) fallen: Option<Fallen>,
    pub(crate) drafter: u32,
    pub(crate) dropped: Option<Ticket>,
    pub(crate) expired: Option<Ticket>,
    pub(crate) drafts: Vec<OpenDraft>,
    pub(crate) sweep: Option<OpenSweep>,
    pub(crate) closed: Option<ClosedSweep>,
    pub(crate) start: Start,
}

impl<K: Keeper> Model for Store<K> {
    ghost use Rattle.std.specs.Prelude.{map};
    ghost use Rattle.std.specs.Option.{option_map};
    ghost use Rattle.cat_keeper.specs.Bases.{bases_in};
    ghost use Rattle.cat_core.specs.Lasting.{IsHolding};
    ghost use Rattle.cat_core.specs.Stored.{GoesBehind, IsInStep, IsSound, IsSwept, Stored, draft_held, failed, held_mark, held_open, opened_held, sweep_held};

    ghost Value = { Stored K };

    ghost view = { λ s. record {
      book = s.ledger;
      keeper = s.keeper;
      mark = held_mark s.ledger.draft s.drafter s.dropped s.expired s.sweep s.closed
          (failed s.fallen (K.in_flight s.keeper)) (K.form s.keeper) (K.start s.keeper)
          (bases_in (K.told s.keeper));
      left_open = held_open s.drafts.items s.sweep;
      opened = opened_held s.ledger.base s.start;
    } };

    ghost invariant = { λ s. IsInStep K.Keeper (opened_held s.ledger.base s.start) s.ledger s.keeper
        s.fallen
        × IsSound (opened_held s.ledger.base s.start) s.ledger (map draft_held s.drafts.items)
        × IsSwept s.ledger (map draft_held s.drafts.items) s.sweep s.closed
        × IsHolding s.ledger (map draft_held s.drafts.items) (option_map sweep_held s.sweep)
        × GoesBehind K.Keeper (opened_held s.ledger.base s.start) (map draft_held s.drafts.items)
        s.sweep s.keeper };
}

impl<K: Keeper> Logged for Store<K> {
    ghost use Rattle.cat_checks.specs.Histories.{IsLegalFrom};
    ghost use Rattle.cat_core.specs.Stored.{log_of, opened_of};

    ghost log = { λ s. log_of s };

    ghost opened = { λ s. opened_of s };

    ghost legal = { IsLegalFrom };

    ghost mark = { λ s. s.mark };

    ghost left_open = { λ s. s.left_open };

    fn count(&self) -> u32 {
        self.ledger.place()
    }

    fn first(&self) -> u32 {
        self.ledger.first()
    }
}

impl<K: Keeper> Store<K> {
    /// The store of a ledger over its keeper, without a draft.
    fn over(alloc: Global, ledger: Ledger, start: Start, keeper: K) -> Store<K>
        requires payloads { IfSome (K.told keeper)
            (StandThrough (opened_held ledger.base start) (reverse ledger.log)) }
        requires number { reached K.Keeper keeper ≡ ledger.state.place }
        requires up { K.down keeper ≡ None }
        requires began { start.faults ≡ K.faults keeper }
        requires sound { IsSound (opened_held ledger.base start) ledger [] }
        ensures { result
            ≡ record {
              book = ledger;
              keeper = keeper;
              mark = new_mark ledger.draft (K.form keeper) (K.start keeper)
                  (bases_in (K.told keeper));
              left_open = nothing_open;
              opened = opened_held ledger.base start;
            } }
    {
        Store {
            ledger,
            keeper,
            fallen: None,
            drafter: 0,
            dropped: None,
            expired: None,
            drafts: Vec::new(alloc),
            sweep: None,
            closed: None,
            start,
        }
    }

    /// The store of an empty catalogue: the branch `main` without a commit, over a keeper of no
    /// payloads. Where memory runs out the keeper comes back.
    pub fn new(alloc: Global, keeper: K, limits: Limits) -> Result<Store<K>, (K, NoMemory)>
        requires log { limits.log ≤ 4294967295 }
        requires commits { limits.commits ≤ 4294967295 }
        requires none_kept { reached K.Keeper keeper ≡ 0 }
        requires none_told { IfSome (K.told keeper) (λ ps. ps ≡ []) }
        requires up { K.down keeper ≡ None }
        ensures ok { IfOk result
            (λ store. store
            ≡ record {
              book = first_book sha256 limits;
              keeper = keeper;
              mark = new_mark 0 (K.form keeper) (K.start keeper) (bases_in (K.told keeper));
              left_open = nothing_open;
              opened = from_nothing limits 0 (K.faults keeper);
            }) }
        ensures err { IfErr result (λ e. e.0 ≡ keeper) }
    {
        let start = Start::empty(alloc, 0, keeper.fault_count());
        match Ledger::new(alloc, limits) {
            Ok(ledger) => Ok(Store::over(alloc, ledger, start, keeper)),
            Err(fault) => Err((keeper, fault)),
        }
    }

    /// Executes every entry of the keeper again that stands behind its base: the store of the
    /// catalogue that they lead to, from the base's, or from the empty one. `Illegal` of the base's
    /// place exactly where no log may start from it: where it isn't as each catalogue is that
    /// entries lead to, or passes one of the limits of references, of the log, of commits, of keys
    /// or of contents. With each fault the keeper comes back.
    pub fn open(alloc: Global, keeper: K, limits: Limits) -> Result<Store<K>, (K, StoreFault)>
        requires log { limits.log ≤ 4294967295 }
        requires commits { limits.commits ≤ 4294967295 }
        requires up { K.down keeper ≡ None }
        ensures opened { IfOk result
            (λ store. IsLedTo (K.told keeper) (K.kept keeper) limits store.opened store.book) }
        ensures same { IfOk result
            (λ store. (o : Opened) (log : List LogEntry) → o.state.limits ≡ limits
            → IfSome (K.told keeper) (StandFor o log)
            → IfSome (K.told keeper) (λ _. GoesOn o log store.opened (log_of store))) }
        ensures mark { IfOk result
            (λ store. store.mark
            ≡ new_mark store.book.draft (K.form keeper) (K.start keeper)
            (bases_in (K.told keeper))) }
        ensures none { IfOk result (λ store. store.left_open ≡ nothing_open) }
        ensures place { IfOk result (λ store. store.opened.state.place ≡ K.start keeper) }
        ensures began { IfOk result (λ store. store.opened.faults ≡ K.faults store.keeper) }
        ensures stays { MatchResult result
            (λ store. WasRead K.Keeper keeper store.keeper)
            (λ e. WasRead K.Keeper keeper e.0) }
        ensures illegal { IfErr result
            (λ e. (place : ℕ) → e.1 ≡ StoreFault.Illegal place
            → IsIllegalAt (K.told keeper) limits place) }
        ensures fault { IfErr result
            (λ e. e.1 ≡ StoreFault.Fault → Rose (K.faults keeper) (K.faults e.0)) }
        ensures level { MatchResult result (λ store. K.faults store.keeper ≡ K.faults keeper)
            (λ e. e.1 ≢ StoreFault.Fault → K.faults e.0 ≡ K.faults keeper) }
    {
        let mut keeper = keeper;
        match led_to(alloc, &mut keeper, limits) {
            Ok((ledger, start)) => Ok(Store::over(alloc, ledger, start, keeper)),
            Err(fault) => Err((keeper, fault)),
        }
    }

    /// Answers a reading call.
    pub fn read(&self, alloc: Global, ask: &Ask) -> Result<Told, Refused>
        ensures { Reads sha256 self.now.book ask.now result }
    {
        self.ledger.read(alloc, ask)
    }

    /// How much it holds.
    pub fn counts(&self) -> Counts
        ensures place { result.place ≡ self.now.book.state.place }
        ensures references { result.references ≡ length self.now.book.state.references }
        ensures commits { result.commits ≡ length self.now.book.state.commits }
        ensures contents { result.contents ≡ length self.now.book.state.present }
        ensures keys { result.keys
            ≡ length
            (entries self.now.book.state.commits (main_head self.now.book.state.references)) }
        ensures head { result.head ≡ main_head self.now.book.state.references }
    {
        self.ledger.counts()
    }

    /// The entry of a key on `main`.
    pub fn entry_on_main(&self, key: &ContentKey) -> Option<Entry>
        ensures { result
            ≡ entry_of
            (entries self.now.book.state.commits (main_head self.now.book.state.references))
            key.now }
    {
        self.ledger.entry_on_main(key)
    }

    /// What holds of the log: each entry is legal where it stands, and it leads to the state, in
    /// which `main` is a branch, and each commit and each content stands under its hash.
    pub fn history(&self)
        ensures legal { IsLegalFrom (opened_of self.now) (log_of self.now) }
        ensures led { (book_at (opened_of self.now) (log_of self.now)).state ≡ self.now.book.state }
        ensures base { self.now.book.base ≡ (opened_of self.now).state }
        ensures upheld { Upholds sha256 self.now.book.state }
        ensures draft { self.now.mark.draft ≡ self.now.book.draft }
    {
        let _ = &self.fallen;
    }

    /// What holds of the book and of the drafts beside it.
    pub(crate) fn is_sound(&self)
        ensures sound { IsSound self.now.opened self.now.book self.now.left_open.drafts }
        ensures base { self.now.mark.base ≡ K.start self.now.keeper }
        ensures bases { self.now.mark.bases ≡ bases_in (K.told self.now.keeper) }
        ensures format { self.now.mark.format ≡ K.form self.now.keeper }
        ensures formed { IsTrue (is_format self.now.mark.format) }
        ensures draft { self.now.mark.draft ≡ self.now.book.draft }
        ensures sweep { IsMarked self.now.mark self.now.left_open.sweep }
        ensures closes { MayBeClosed self.now.book self.now.left_open.sweep }
        ensures holding { IsHolding self.now.book self.now.left_open.drafts
            self.now.left_open.sweep }
    {
        let _ = &self.fallen;
    }

    /// What holds of the drafts that are open: a content that one of them names, or that is visible
    /// at a commit that it names, and that was there at some moment since its opening, is there.
    pub fn keeps_what_drafts_name(&self)
        ensures { AreLasting self.now.book self.now.left_open.drafts }
    {
        self.is_sound();
    }

    /// What holds of the open sweep: the mark tells of it, and the commits that drafts gave it are
    /// known. Each commit stands above its parents.
    pub fn sweep_is_told(&self)
        ensures linked { AreLinked self.now.book.state.commits }
        ensures marked { IsMarked self.now.mark self.now.left_open.sweep }
        ensures known { KnowsNames self.now.book.state self.now.left_open.sweep }
    {
        let _ = &self.fallen;
        self.is_sound();
        self.knows_heads();
    }

    /// What holds of the state: where its references point, and its commits.
    pub(crate) fn knows_heads(&self)
        ensures heads { IsTrue (is_headed self.now.book.state) }
        ensures linked { AreLinked self.now.book.state.commits }
    {
        let catalogue = self.ledger.catalogue();
        catalogue.commits_are_linked();
        let _ = catalogue.references();
    }

    /// What holds of the keeper: its payloads stand for the log, and the mark tells of its bases and
    /// of its failed append or rebase. With the payload that this left in flight they stand for the
    /// log, or for it and one entry more. With it or without it they are opened again, and so they
    /// are at each length that they had since the log was opened. No call of it failed since then
    /// but that one: its count of faults is the one at the opening, or the one that the mark tells,
    /// which is above that, or at its type's end.
    pub fn log_is_kept(&self)
        ensures payloads { IfSome (K.told self.now.keeper)
            (StandThrough self.now.opened (log_of self.now)) }
        ensures again { IfSome (K.told self.now.keeper) (OpenThrough self.now.opened) }
        ensures number { reached K.Keeper self.now.keeper ≡ self.now.book.state.place }
        ensures base { self.now.mark.base ≡ K.start self.now.keeper }
        ensures bases { self.now.mark.bases ≡ bases_in (K.told self.now.keeper) }
        ensures format { self.now.mark.format ≡ K.form self.now.keeper }
        ensures fallen { K.down self.now.keeper
            ≡ option_map (λ (x : FailedAppend). x.count) self.now.mark.fault }
        ensures flies { K.in_flight self.now.keeper
            ≡ option_map (λ (x : FailedAppend). x.payload) self.now.mark.fault }
        ensures flown { (x : FailedAppend) → self.now.mark.fault ≡ Some x
            → IfSome (K.told self.now.keeper)
            (λ ps. StandFlown self.now.opened (log_of self.now) x.payload
            (ps ++ x.payload ∷ [])) }
        ensures again_flown { (x : FailedAppend) → self.now.mark.fault ≡ Some x
            → IfSome (K.told self.now.keeper)
            (λ ps. Opens self.now.opened.state.limits (ps ++ x.payload ∷ [])) }
        ensures level { K.faults self.now.keeper
            ≡ faults_at self.now.opened.faults self.now.mark.fault }
        ensures rose { (x : FailedAppend) → self.now.mark.fault ≡ Some x
            → (self.now.opened.faults ≤ x.count) × Rose self.now.opened.faults x.count }
    {
        let _ = &self.fallen;
    }

    /// How many of the keeper's calls failed.
    pub fn faults(&self) -> u64
        ensures { result ≡ K.faults self.now.keeper }
    {
        self.keeper.fault_count()
    }

    /// The count of faults at which an append failed, if one did.
    pub fn down(&self) -> Option<u64>
        ensures keeper { result ≡ K.down self.now.keeper }
        ensures mark { MayBeDown self.now result }
    {
        match self.fallen {
            None => None,
            Some(fallen) => Some(fallen.count),
        }
    }

    /// The keeper.
    pub fn into_keeper(self) -> K
        ensures { result ≡ self.keeper }
    {
        let Store { keeper, .. } = self;
        keeper
    }
}
