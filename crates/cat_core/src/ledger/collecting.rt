//! Sweeps of a ledger.

ghost use Rattle.std.specs.Prelude.{◌≡◌, ◌≤◌, ◌<◌, ◌∷◌, ◌+◌, [], None, Ok, IfErr, IfOk, IsTrue, OnErr, OnOk, drop, length, reverse};
ghost use Rattle.sha2.specs.Sha256.{sha256};
ghost use Rattle.cat_frames.specs.Entries.{is_logged};
ghost use Rattle.cat_frames.specs.Sweeps.{sweep_is_logged};
ghost use Rattle.cat_mark.specs.Walked.{HaveWalked};
ghost use Rattle.cat_model.specs.Sweeps.{needs_sweep_room};
ghost use Rattle.cat_state.specs.Adding.{IsAbove};
ghost use Rattle.cat_state.specs.Kept.{IsUnrefused, Keeps, reached};
ghost use Rattle.cat_state.specs.Sweeping.{spares_at, sweeping};
ghost use Rattle.cat_tables.specs.References.{heads_pass};
ghost use Rattle.cat_core.specs.Making.{Runs, with_entry};
ghost use Rattle.cat_core.specs.Sweeping.{AreRemoved};
ghost use Rattle.cat_core.specs.Sweeps.{AreAllMarked, AreUnmarked, sweep_in, sweep_on, swept_told};

use crate::closing::Closing;
use crate::ledger::Ledger;
use crate::marking::mark_roots;
use cat_codes::fault::NoMemory;
use cat_keeper::Keeper;
use cat_mark::{Marks, Roots};
use cat_model::limits::Quantity;
use cat_model::log_entry::{Action, LogEntry};
use cat_model::moment::Moment;
use cat_model::refusal::Refusal;
use cat_model::reply::{Reply, Swept, Told};
use cat_model::sweep::Sweep;
use cat_names::hash::Hash;
use cat_state::failure::Failure;
use cat_state::unmade::Unmade;
use std::alloc::Global;

impl Ledger {
    /// The entries of the log behind the first so many, the oldest first.
    pub(crate) fn entries_from(&self, first: u32) -> &[LogEntry]
        requires { first ≤ length self.now.log }
        ensures { result.now ≡ drop first (reverse self.now.log) }
    {
        &self.log[first as usize..]
    }

    /// There is room for a sweep: for an entry, and for its names in it.
    #[tactic(auto, unfolding(cat_model::specs::Sweeps::needs_sweep_room))]
    fn needs_sweep_room(&self, sweep: &Sweep) -> Result<(), Refusal>
        ensures test { result
            ≡ needs_sweep_room self.now.state
            (length sweep.now.commits + length sweep.now.contents) }
        ensures below { OnOk result (self.now.state.place < 4294967295) }
        ensures log { OnOk result (self.now.state.place < self.now.state.limits.log) }
    {
        sweep.commits.known();
        sweep.contents.known();
        let limits = self.catalogue().limits();
        if u64::from(self.place()) >= limits.log {
            return Err(Refusal::Limit {
                which: Quantity::Log,
                number: limits.log,
            });
        }
        if sweep.commits.len() as u64 + sweep.contents.len() as u64 > limits.names {
            return Err(Refusal::Limit {
                which: Quantity::Names,
                number: limits.names,
            });
        }
        Ok(())
    }

    /// The hashes of the contents that neither marks nor roots keep.
    fn unmarked(&self, alloc: Global, marks: Marks, roots: &Roots) -> Result<Vec<Hash>, NoMemory>
        requires { HaveWalked self.now.state.commits marks }
        ensures { IfOk result
            (λ hashes. AreUnmarked self.now.state marks.set roots.now hashes.items) }
    {
        let mut marks = marks;
        mark_roots(&mut marks, self.catalogue(), roots)?;
        marks.unmarked(alloc, self.catalogue().contents())
    }

    /// Takes room for an entry in the log, removes the contents of these hashes once the keeper has
    /// the entry, and adds the entry to the log, which takes no memory; or changes nothing.
    fn remove<K: Keeper>(
        &mut self,
        alloc: Global,
        keeper: &mut K,
        entry: LogEntry,
        hashes: &[Hash],
    ) -> Result<(), Unmade>
        requires place { self.old.state.place < 4294967295 }
        requires log { self.old.state.place < self.old.state.limits.log }
        requires spared { IsTrue
            (heads_pass (spares_at self.old.state.commits hashes.now) self.old.state.references) }
        requires logged { IsTrue (is_logged sha256 entry) }
        requires up { K.down keeper.old ≡ None }
        requires kept { reached K.Keeper keeper.old ≡ self.old.state.place }
        ensures ok { OnOk result
            (self.new ≡ with_entry self.old (sweeping self.old.state hashes.now) entry) }
        ensures err { OnErr result (self.new ≡ self.old) }
        ensures unrefused { IfErr result IsUnrefused }
        ensures kept { reached K.Keeper keeper.new ≡ self.new.state.place }
        ensures keeps { Keeps K.Keeper keeper.old keeper.new (entry ∷ []) result }
    {
        if self.log.reserve(1).is_err() {
            drop(entry);
            return Err(Unmade::Failed(Failure::NoMemory));
        }
        match self.catalogue.make_sweep(alloc, keeper, &entry, hashes) {
            Ok(()) => {
                self.log.push_reserved(entry);
                Ok(())
            }
            Err(why) => {
                drop(entry);
                Err(why)
            }
        }
    }

    /// What is told of a sweep that was opened at a place, once it was made: so many contents there
    /// were before.
    fn swept(&self, opened: u32, before: usize) -> Told
        requires { length self.now.state.present ≤ before }
        ensures { result ≡ swept_told self.now.state opened before }
    {
        let kept = self.catalogue().contents().len();
        Told {
            place: self.place(),
            reply: Reply::Swept(Swept {
                kept: kept as u64,
                opened,
                removed: (before - kept) as u64,
            }),
        }
    }

    /// Makes a sweep that removes the contents of these hashes.
    fn sweep<K: Keeper>(
        &mut self,
        alloc: Global,
        keeper: &mut K,
        caller: u32,
        moment: Moment,
        sweep: Sweep,
        hashes: Vec<Hash>,
    ) -> Result<Told, Unmade>
        requires room { needs_sweep_room self.old.state (length sweep.commits + length sweep.contents)
            ≡ Ok tt }
        requires place { self.old.state.place < 4294967295 }
        requires log { self.old.state.place < self.old.state.limits.log }
        requires logged { IsTrue (sweep_is_logged sweep) }
        requires goes { AreRemoved self.old sweep hashes.items }
        requires up { K.down keeper.old ≡ None }
        requires kept { reached K.Keeper keeper.old ≡ self.old.state.place }
        ensures call { Runs (sweep_on caller self.old moment sweep) self.old self.new result }
        ensures later { IsAbove self.old.state.commits self.new.state.commits }
        ensures kept { reached K.Keeper keeper.new ≡ self.new.state.place }
        ensures keeps { Keeps K.Keeper keeper.old keeper.new
            (sweep_on caller self.old moment sweep).logged result }
    {
        let before = self.catalogue().contents().len();
        let opened = sweep.opened;
        let entry = LogEntry {
            place: self.place() + 1,
            caller,
            draft: 0,
            moment,
            action: Action::Sweep(sweep),
            head: None,
        };
        match self.remove(alloc, keeper, entry, hashes.as_slice()) {
            Ok(()) => Ok(self.swept(opened, before)),
            Err(why) => Err(why),
        }
    }

    /// Makes a sweep that was closed, given the marks of what it has to keep and the roots of what
    /// these lack.
    pub(crate) fn collect<K: Keeper>(
        &mut self,
        alloc: Global,
        keeper: &mut K,
        moment: Moment,
        closing: Closing,
        marks: Marks,
        roots: &Roots,
    ) -> Result<Told, Unmade>
        requires logged { IsTrue (sweep_is_logged (sweep_in closing)) }
        requires marked { AreAllMarked self.old (sweep_in closing) marks.set roots.now }
        requires walked { HaveWalked self.old.state.commits marks }
        requires up { K.down keeper.old ≡ None }
        requires kept { reached K.Keeper keeper.old ≡ self.old.state.place }
        ensures call { Runs (sweep_on closing.ticket.caller self.old moment (sweep_in closing))
            self.old self.new result }
        ensures later { IsAbove self.old.state.commits self.new.state.commits }
        ensures kept { reached K.Keeper keeper.new ≡ self.new.state.place }
        ensures keeps { Keeps K.Keeper keeper.old keeper.new
            (sweep_on closing.ticket.caller self.old moment (sweep_in closing)).logged result }
    {
        let caller = closing.ticket.caller;
        let sweep = match closing.into_sweep() {
            Ok(sweep) => sweep,
            Err(_) => {
                drop(marks);
                return Err(Unmade::Failed(Failure::NoMemory));
            }
        };
        if let Err(why) = self.needs_sweep_room(&sweep) {
            drop(sweep);
            drop(marks);
            return Err(Unmade::Failed(Failure::Refused(why)));
        }
        match self.unmarked(alloc, marks, roots) {
            Ok(hashes) => self.sweep(alloc, keeper, caller, moment, sweep, hashes),
            Err(_) => {
                drop(sweep);
                Err(Unmade::Failed(Failure::NoMemory))
            }
        }
    }
}
