//! Sweeps: opened in one turn, and settled or dropped in a later one. Their roots are told, so that
//! they may be marked outside any turn.

ghost use Rattle.std.specs.Prelude.{◌≡◌, ◌≤◌, None, Some, IfErr, IfOk, IsTrue, OnErr, drop, length};
ghost use Rattle.sha2.specs.Sha256.{sha256};
ghost use Rattle.cat_checks.specs.Histories.{IsLegalFrom};
ghost use Rattle.cat_checks.specs.Legal.{may_be_swept};
ghost use Rattle.cat_frames.specs.Sweeps.{resolved_is_logged, sweep_is_logged};
ghost use Rattle.cat_mark.specs.Walked.{HaveWalked};
ghost use Rattle.cat_model.specs.Drafts.{OpenSweep as OpenSweepValue};
ghost use Rattle.cat_model.specs.Mark.{FailedAppend, closed_number};
ghost use Rattle.cat_model.specs.Sweeps.{names_in};
ghost use Rattle.cat_model.specs.Turns.{Acts};
ghost use Rattle.cat_state.specs.Kept.{Leaves};
ghost use Rattle.cat_core.specs.Kept.{IsTold, KeepsTold};
ghost use Rattle.cat_core.specs.Lasting.{AreLasting, HasAllNames};
ghost use Rattle.cat_core.specs.Stored.{IsUp, log_of, snap};
ghost use Rattle.cat_core.specs.Sweeps.{AreAllMarked, AreGiven, Closes, Completes, Drops, IsDrained, IsOpened, IsSettledSweep, IsSweepOpening, IsSweeping, NotSwept, Sweeps, called_sweep, drained_on, given_by, kept_by, names_behind, next_sweep, roots_since, sweep_in, sweep_on};

use crate::closing::{Closing, close_sweep};
use crate::rooting::{commits_named, contents_named, first_roots, roots_since};
use crate::store::Store;
use crate::telling::{down_at, no_memory, sweep_open_at, tell};
use crate::tickets::{ClosedSweep, OpenSweep, Ticket};
use cat_codes::fault::NoMemory;
use cat_keeper::Keeper;
use cat_mark::{Marks, Roots};
use cat_model::cutoff::Resolved;
use cat_model::moment::Moment;
use cat_model::refusal::Refused;
use cat_model::reply::Told;
use cat_names::hash::Hash;
use cat_state::view::View;
use std::alloc::Global;

/// A sweep that is open, which stays so until it is settled or dropped. What was live at any moment
/// since its opening stays in the catalogue, and so does what drafts named meanwhile.
pub struct Sweep {
    pub(crate) ticket: Ticket,
}

/// The hashes behind the first ones.
fn behind(hashes: &[Hash], first: usize) -> &[Hash]
    requires { first ≤ length hashes.now }
    ensures { result.now ≡ drop first hashes.now }
{
    &hashes[first..]
}

impl<K: Keeper> Store<K> {
    /// How many entries the log has.
    fn entries(&self) -> u32
        ensures { result ≡ length self.now.book.log }
    {
        self.is_sound();
        self.ledger.place() - self.ledger.first()
    }

    /// The number of the sweep that was closed last, 0 where there is none.
    fn last_closed(&self) -> u64
        ensures { result ≡ closed_number self.now.mark.closed }
    {
        match self.closed {
            None => 0,
            Some(closed) => closed.ticket.number,
        }
    }

    /// The number of the next sweep, where none is open.
    fn next_sweep(&self) -> u64
        requires { self.now.left_open.sweep ≡ None }
        ensures next { result ≡ next_sweep self.now.mark }
        ensures last { closed_number self.now.mark.closed ≤ result }
    {
        self.is_sound();
        self.last_closed().saturating_add(1)
    }

    /// Opens a sweep, where none is open.
    fn begin(
        &mut self,
        alloc: Global,
        caller: u32,
        policy: Resolved,
    ) -> Result<(Sweep, Roots, View), NoMemory>
        requires few { length policy.cutoffs ≤ 1000 }
        requires logged { IsTrue (resolved_is_logged policy) }
        requires up { IsUp self.old }
        requires none { self.old.left_open.sweep ≡ None }
        ensures opened { IfOk result
            (λ t. IsSweepOpening caller policy self.old self.new t.0 t.1 t.2) }
        ensures stays { OnErr result (self.new ≡ self.old) }
    {
        self.is_sound();
        let ticket = Ticket {
            number: self.next_sweep(),
            caller,
            place: self.ledger.place(),
        };
        let commits = commits_named(alloc, self.drafts.as_slice())?;
        let contents = contents_named(alloc, self.drafts.as_slice())?;
        let roots = first_roots(
            alloc,
            &policy,
            self.ledger.catalogue().references(),
            commits.as_slice(),
            contents.as_slice(),
        )?;
        let view = self.ledger.view()?;
        self.sweep = Some(OpenSweep {
            ticket,
            policy,
            given_commits: commits.len(),
            given_contents: contents.len(),
            commits,
            contents,
            drained: self.entries(),
        });
        Ok((Sweep { ticket }, roots, view))
    }

    /// Opens a sweep, under the next number of sweeps. It answers the roots of all that the sweep
    /// has to keep as yet, which are the heads of all references and what open drafts name, and a
    /// view of the catalogue to mark it on. `SweepOpen`, where the store isn't down, exactly where
    /// one is open, want of memory aside.
    pub fn open_sweep(
        &mut self,
        alloc: Global,
        caller: u32,
        policy: Resolved,
    ) -> Result<(Sweep, Roots, View), Refused>
        requires few { length policy.cutoffs ≤ 1000 }
        requires logged { IsTrue (resolved_is_logged policy) }
        ensures opened { IfOk result
            (λ t. IsSweepOpening caller policy self.old self.new t.0 t.1 t.2) }
        ensures refused { IfErr result (λ r. (self.new ≡ self.old) × NotSwept self.old r r.why) }
        ensures acts { Acts IsLegalFrom caller (snap self.old) (snap self.new) }
    {
        self.is_sound();
        let place = self.ledger.place();
        if let Some(count) = self.down() {
            drop(policy);
            return Err(down_at(place, count));
        }
        if let Some(open) = &self.sweep {
            drop(policy);
            return Err(sweep_open_at(place, open.ticket.place));
        }
        match self.begin(alloc, caller, policy) {
            Ok(opened) => Ok(opened),
            Err(_) => Err(no_memory()),
        }
    }

    /// The roots of what the open sweep has to keep beside what its caller was given.
    fn roots_since(&self, alloc: Global) -> Result<Roots, NoMemory>
        requires { IsOpened self.now.left_open.sweep }
        ensures completes { (o : OpenSweepValue) → self.now.left_open.sweep ≡ Some o
            → IfOk result
            (λ roots. Completes self.now.book.state.commits (given_by self.now.book o) roots
            (kept_by self.now.book o)) }
        ensures from { (o : OpenSweepValue) → self.now.left_open.sweep ≡ Some o
            → IfOk result
            (λ roots. roots
            ≡ roots_since o.policy (drop o.drained (log_of self.now)) (names_behind o)) }
    {
        self.knows_heads();
        let Some(open) = &self.sweep else {
            unreachable!()
        };
        let commits = behind(open.commits.as_slice(), open.given_commits);
        let contents = behind(open.contents.as_slice(), open.given_contents);
        roots_since(
            alloc,
            &open.policy,
            self.ledger.entries_from(open.drained),
            commits,
            contents,
        )
    }

    /// Tells that the caller of the open sweep was given all.
    fn give(&mut self)
        ensures { (o : OpenSweepValue) → self.old.left_open.sweep ≡ Some o
            → self.new
            ≡ record self.old {
              left_open = record (self.old.left_open) {
                sweep = Some (drained_on self.old.book o);
              };
            } }
    {
        let entries = self.entries();
        if let Some(open) = &mut self.sweep {
            open.drained = entries;
            open.given_commits = open.commits.len();
            open.given_contents = open.contents.len();
        }
    }

    /// The roots of what the sweep has to keep beside what they were given before, and a view of
    /// the catalogue: the heads that entries made since, and what drafts named since, and no others.
    /// Where memory runs out, nothing was given.
    pub fn drain(&mut self, alloc: Global, sweep: &Sweep) -> Result<(Roots, View), NoMemory>
        requires is_open { IsSweeping self.old sweep.now }
        ensures drained { IfOk result (λ t. IsDrained self.old self.new t.0 t.1) }
        ensures stays { OnErr result (self.new ≡ self.old) }
        ensures acts { Acts IsLegalFrom sweep.now.ticket.caller (snap self.old) (snap self.new) }
    {
        self.is_sound();
        let _ = sweep;
        let roots = self.roots_since(alloc)?;
        let view = self.ledger.view()?;
        self.give();
        Ok((roots, view))
    }

    /// Closes the open sweep, and tells of it as the last that was closed. It takes no memory.
    fn shut(&mut self, sweep: Sweep) -> Closing
        requires { IsSweeping self.old sweep }
        ensures shut { Drops self.old self.old.left_open.sweep self.new }
        ensures closing { Closes self.old.left_open.sweep result }
        ensures since { K.start self.old.keeper ≤ result.ticket.place }
    {
        let Sweep { ticket: _ } = sweep;
        let Some(open) = self.sweep.take() else {
            unreachable!()
        };
        let closing = close_sweep(open);
        self.closed = Some(ClosedSweep {
            ticket: closing.ticket,
            names: closing.count(),
        });
        closing
    }

    /// Makes a sweep that was closed, while the store is up, given the marks of what it has to keep
    /// and the roots of what these lack.
    fn collect(
        &mut self,
        alloc: Global,
        moment: Moment,
        closing: Closing,
        marks: Marks,
        roots: &Roots,
    ) -> Result<Told, Refused>
        requires up { IsUp self.old }
        requires may { IsTrue (may_be_swept sha256 self.old.book (sweep_in closing)) }
        requires logged { IsTrue (sweep_is_logged (sweep_in closing)) }
        requires told { HasAllNames (names_in (sweep_in closing)) self.old.left_open.drafts }
        requires since { K.start self.old.keeper ≤ closing.ticket.place }
        requires marked { AreAllMarked self.old.book (sweep_in closing) marks.set roots.now }
        requires walked { HaveWalked self.old.book.state.commits marks }
        ensures { IsTold K.Keeper closing.ticket.caller self.old self.new
            (sweep_on closing.ticket.caller self.old.book moment (sweep_in closing)) result }
    {
        self.knows_heads();
        let place = self.ledger.place();
        let caller = closing.ticket.caller;
        let made = self
            .ledger
            .collect(alloc, &mut self.keeper, moment, closing, marks, roots);
        self.ledger.catalogue().commits_are_linked();
        tell(&self.keeper, &mut self.fallen, caller, place, made)
    }

    /// Settles a sweep by its marks.
    fn swept(
        &mut self,
        alloc: Global,
        sweep: Sweep,
        marks: Marks,
        moment: Moment,
    ) -> Result<Told, Refused>
        requires is_open { IsSweeping self.old sweep }
        requires marks { (o : OpenSweepValue) → self.old.left_open.sweep ≡ Some o
            → AreGiven self.old.book o marks.set }
        requires walked { HaveWalked self.old.book.state.commits marks }
        ensures { (o : OpenSweepValue) → self.old.left_open.sweep ≡ Some o
            → IsSettledSweep K.Keeper self.old self.new o moment result }
    {
        self.is_sound();
        let place = self.ledger.place();
        if let Some(count) = self.down() {
            drop(marks);
            drop(self.shut(sweep));
            return Err(down_at(place, count));
        }
        match self.roots_since(alloc) {
            Ok(roots) => {
                let closing = self.shut(sweep);
                self.collect(alloc, moment, closing, marks, &roots)
            }
            Err(_) => {
                drop(marks);
                drop(self.shut(sweep));
                Err(no_memory())
            }
        }
    }

    /// Removes the contents that the sweep need not keep, given the marks of what its roots keep;
    /// it marks what was made and named since they were given. The sweep is closed, whatever the
    /// answer, and what open drafts name is there if it was since their opening. `Ok` acknowledges
    /// its entry; a `Fault` may have kept it or not, and each later call is refused as `Down` at
    /// the count of faults then. Once an append has failed, the keeper isn't called any more.
    pub fn sweep(
        &mut self,
        alloc: Global,
        sweep: Sweep,
        marks: Marks,
        moment: Moment,
    ) -> Result<Told, Refused>
        requires is_open { IsSweeping self.old sweep }
        requires marks { (o : OpenSweepValue) → self.old.left_open.sweep ≡ Some o
            → AreGiven self.old.book o marks.set }
        requires walked { HaveWalked self.old.book.state.commits marks }
        ensures swept { Sweeps self.old self.old.left_open.sweep moment result self.new }
        ensures acts { Acts IsLegalFrom sweep.ticket.caller (snap self.old) (snap self.new) }
        ensures keeps { IsUp self.old
            → (o : OpenSweepValue) → self.old.left_open.sweep ≡ Some o
            → KeepsTold K.Keeper self.old.keeper self.new.keeper
            (called_sweep self.old o moment).logged result }
        ensures crash { IsUp self.old
            → (o : OpenSweepValue) → self.old.left_open.sweep ≡ Some o
            → Leaves K.Keeper self.old.keeper self.new.keeper
            (called_sweep self.old o moment).logged }
        ensures rests { (x : FailedAppend) → self.old.mark.fault ≡ Some x
            → self.new.keeper ≡ self.old.keeper }
        ensures lasting { AreLasting self.new.book self.new.left_open.drafts }
    {
        self.is_sound();
        let told = self.swept(alloc, sweep, marks, moment);
        self.keeps_what_drafts_name();
        told
    }

    /// Closes a sweep that is given up. It takes no memory.
    pub fn drop_sweep(&mut self, sweep: Sweep)
        requires is_open { IsSweeping self.old sweep }
        ensures dropped { Drops self.old self.old.left_open.sweep self.new }
        ensures acts { Acts IsLegalFrom sweep.ticket.caller (snap self.old) (snap self.new) }
    {
        self.is_sound();
        drop(self.shut(sweep));
    }
}
