//! What is told of calls.

ghost use Rattle.std.specs.Prelude.{◌≡◌, None, Some};
ghost use Rattle.cat_core.specs.Made.{based_at, fallen_by, told_at};
ghost use Rattle.cat_model.specs.declared.refusal.Refusal.TheVariants as refusals;

use crate::ledger::refused;
use crate::tickets::Fallen;
use cat_keeper::Keeper;
use cat_model::refusal::{Refusal, Refused};
use cat_model::reply::{Reply, Told};
use cat_state::unmade::Unmade;

/// The refusal for want of memory.
pub(crate) fn no_memory() -> Refused
    ensures { result ≡ record { place = None; why = refusals.NoMemory } }
{
    Refused {
        place: None,
        why: Refusal::NoMemory,
    }
}

/// The refusal at a place, since an append failed at that count of faults.
pub(crate) fn down_at(place: u32, count: u64) -> Refused
    ensures { result ≡ record { place = Some place; why = refusals.Down count } }
{
    Refused {
        place: Some(place),
        why: Refusal::Down(count),
    }
}

/// The refusal at a place, since the journal is of an old format.
pub(crate) fn old_format_at(place: u32) -> Refused
    ensures { result ≡ record { place = Some place; why = refusals.OldFormat } }
{
    Refused {
        place: Some(place),
        why: Refusal::OldFormat,
    }
}

/// The refusal at a place, since a sweep is open that was opened at another.
pub(crate) fn sweep_open_at(place: u32, opened: u32) -> Refused
    ensures { result ≡ record { place = Some place; why = refusals.SweepOpen opened } }
{
    Refused {
        place: Some(place),
        why: Refusal::SweepOpen(opened),
    }
}

/// What is told of a checkpoint at a place, which makes no entry.
pub(crate) fn checkpoint_at(place: u32, kept: Result<(), Unmade>) -> Result<Told, Unmade>
    ensures { result ≡ based_at place kept }
{
    match kept {
        Ok(()) => Ok(Told {
            place,
            reply: Reply::Checkpoint(place),
        }),
        Err(why) => Err(why),
    }
}

/// What is told of what a call made at a place. Where its entry wasn't kept, its caller fell.
pub(crate) fn tell<K: Keeper>(
    keeper: &K,
    fallen: &mut Option<Fallen>,
    caller: u32,
    place: u32,
    made: Result<Told, Unmade>,
) -> Result<Told, Refused>
    ensures told { result ≡ told_at place made }
    ensures fallen { fallen.new ≡ fallen_by caller (K.faults keeper.now) fallen.old made }
{
    match made {
        Ok(told) => Ok(told),
        Err(Unmade::Failed(failure)) => Err(refused(place, failure)),
        Err(Unmade::NotKept) => {
            *fallen = Some(Fallen {
                caller,
                count: keeper.fault_count(),
            });
            Err(Refused {
                place: Some(place),
                why: Refusal::Fault,
            })
        }
    }
}
