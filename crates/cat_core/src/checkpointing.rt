//! Checkpoints: the state is written into the journal, which goes on from it.

ghost use Rattle.std.specs.Prelude.{◌≡◌, IfOk, Some, filter, map, nat_lt};
ghost use Rattle.std.specs.Ordering.{nat_cmp};
ghost use Rattle.cat_checks.specs.Histories.{IsLegalFrom};
ghost use Rattle.cat_model.specs.KeySets.{set_of};
ghost use Rattle.cat_model.specs.Mark.{FailedAppend};
ghost use Rattle.cat_model.specs.Resuming.{drafts_below};
ghost use Rattle.cat_model.specs.Turns.{Acts};
ghost use Rattle.cat_state.specs.Kept.{LeavesBase};
ghost use Rattle.cat_core.specs.Checkpointing.{Checkpoints, IsCheckpoint, MayBase, base_bytes};
ghost use Rattle.cat_core.specs.Kept.{KeepsBase};
ghost use Rattle.cat_core.specs.Stored.{IsUp, draft_held, snap};

use crate::store::Store;
use crate::telling::{checkpoint_at, down_at, no_memory, old_format_at, sweep_open_at, tell};
use crate::tickets::OpenDraft;
use cat_codes::fault::NoMemory;
use cat_codes::seq::Seq;
use cat_keeper::Keeper;
use cat_model::refusal::Refused;
use cat_model::reply::Told;
use std::alloc::Global;

/// The numbers ascending, each once. It takes no memory.
fn set_of(mut numbers: Vec<u64>) -> Vec<u64>
    ensures { result.items ≡ set_of nat_cmp numbers.items }
{
    numbers.sort_unstable();
    numbers.dedup();
    numbers
}

/// The numbers of drafts that are below this one.
fn numbers_below(alloc: Global, last: u64, drafts: &[OpenDraft]) -> Result<Vec<u64>, NoMemory>
    ensures { IfOk result
        (λ numbers. numbers.items
        ≡ filter (λ n. nat_lt n last)
        (map (λ d. d.opening.number) (map draft_held drafts.now))) }
{
    let mut numbers = Vec::new(alloc);
    for draft in drafts {
        if draft.ticket.number < last {
            numbers.push(draft.ticket.number)?;
        }
    }
    Ok(numbers)
}

/// The numbers of drafts that are below this one, ascending.
fn drafts_below(alloc: Global, last: u64, drafts: &[OpenDraft]) -> Result<Seq<u64>, NoMemory>
    ensures { IfOk result
        (λ numbers. numbers ≡ drafts_below last (map draft_held drafts.now)) }
{
    let numbers = set_of(numbers_below(alloc, last, drafts)?);
    Ok(Seq::from_vec(numbers)?)
}

impl<K: Keeper> Store<K> {
    /// Makes a checkpoint, where it may be made.
    fn rebase(&mut self, alloc: Global, caller: u32) -> Result<Told, Refused>
        requires { MayBase self.old }
        ensures { IsCheckpoint K.Keeper caller self.old self.new result }
    {
        self.is_sound();
        let place = self.ledger.place();
        let draft = self.ledger.last_logged(self.start.draft);
        let Ok(drafts) = drafts_below(alloc, draft, self.drafts.as_slice()) else {
            return Err(no_memory());
        };
        let catalogue = self.ledger.catalogue();
        catalogue.contents().known();
        catalogue.may_start();
        let kept = catalogue.keep_checkpoint(alloc, &mut self.keeper, draft, drafts);
        let made = checkpoint_at(place, kept);
        tell(&self.keeper, &mut self.fallen, caller, place, made)
    }

    /// Writes the state into the journal, which goes on from it: opened again, the log starts
    /// there. It makes no entry, and the log in memory stays whole. Where the store isn't down, want
    /// of memory aside: `OldFormat` exactly where the journal's format has no checkpoints, and
    /// otherwise `SweepOpen` exactly where a sweep is open. `Ok` acknowledges it; after a `Fault` the
    /// journal may go on from it or not, and each later call is refused as `Down` at the count of
    /// faults then. Once an append or a checkpoint has failed, the keeper isn't called any more.
    #[tactic(auto, using(cat_keeper::specs::KeeperLaws::old_format))]
    pub fn checkpoint(&mut self, alloc: Global, caller: u32) -> Result<Told, Refused>
        ensures checkpoints { Checkpoints caller self.old self.new result }
        ensures acts { Acts IsLegalFrom caller (snap self.old) (snap self.new) }
        ensures keeps { IsUp self.old
            → KeepsBase K.Keeper self.old.keeper self.new.keeper self.old.book.state.place
            (base_bytes self.old) result }
        ensures crash { IsUp self.old
            → LeavesBase K.Keeper self.old.keeper self.new.keeper (base_bytes self.old) }
        ensures rests { (x : FailedAppend) → self.old.mark.fault ≡ Some x
            → self.new.keeper ≡ self.old.keeper }
    {
        self.is_sound();
        let place = self.ledger.place();
        if let Some(count) = self.down() {
            return Err(down_at(place, count));
        }
        if self.keeper.format() != 2 {
            return Err(old_format_at(place));
        }
        if let Some(open) = &self.sweep {
            return Err(sweep_open_at(place, open.ticket.place));
        }
        self.rebase(alloc, caller)
    }
}
