//! Entries that are appended to what keeps the log, and checkpoints that become its base.

ghost use Rattle.std.specs.Prelude.{◌≡◌, ◌<◌, ◌+◌, ◌∷◌, [], None, IfErr, IsTrue, OnErr, OnOk};
ghost use Rattle.sha2.specs.Sha256.{sha256};
ghost use Rattle.cat_frames.specs.Entries.{is_logged};
ghost use Rattle.cat_frames.specs.CheckpointLaws.{is_whole_checkpoint};
ghost use Rattle.cat_keeper.specs.Bases.{base_place};
ghost use Rattle.cat_state.specs.Kept.{Bases, IsUnrefused, Keeps};

use crate::unmade::Unmade;
use cat_codes::bytes::Bytes;
use cat_frames::to_bytes;
use cat_keeper::{KeepFault, Keeper};
use cat_model::log_entry::LogEntry;
use std::alloc::Global;

/// Appends an entry to what keeps the log.
pub(crate) fn append<K: Keeper>(
    alloc: Global,
    keeper: &mut K,
    entry: &LogEntry,
) -> Result<(), Unmade>
    requires logged { IsTrue (is_logged sha256 entry.now) }
    requires up { K.down keeper.old ≡ None }
    requires few { K.kept keeper.old < 4294967295 }
    ensures unrefused { IfErr result IsUnrefused }
    ensures more { OnOk result (K.kept keeper.new ≡ K.kept keeper.old + 1) }
    ensures as_many { OnErr result (K.kept keeper.new ≡ K.kept keeper.old) }
    ensures first { K.start keeper.new ≡ K.start keeper.old }
    ensures keeps { Keeps K.Keeper keeper.old keeper.new (entry.now ∷ []) result }
{
    let bytes = to_bytes(alloc, entry)?;
    bytes.known();
    let payload = bytes.as_slice();
    keeper.reserve(payload.len())?;
    match keeper.append(payload) {
        Ok(()) => Ok(()),
        Err(KeepFault::Fault) => Err(Unmade::NotKept),
        Err(KeepFault::Down(_)) => unreachable!(),
        Err(KeepFault::NoMemory) => unreachable!(),
    }
}

/// Makes a checkpoint's payload the base of what keeps the log.
pub(crate) fn rebase<K: Keeper>(keeper: &mut K, place: u32, payload: &Bytes) -> Result<(), Unmade>
    requires reading { IsTrue (is_whole_checkpoint payload.now) }
    requires place { base_place payload.now ≡ place }
    requires format { K.form keeper.old ≡ 2 }
    requires up { K.down keeper.old ≡ None }
    ensures unrefused { IfErr result IsUnrefused }
    ensures bases { Bases K.Keeper keeper.old keeper.new place payload.now result }
{
    payload.known();
    let bytes = payload.as_slice();
    keeper.reserve(bytes.len())?;
    match keeper.rebase(place, bytes) {
        Ok(()) => Ok(()),
        Err(KeepFault::Fault) => Err(Unmade::NotKept),
        Err(KeepFault::Down(_)) => unreachable!(),
        Err(KeepFault::NoMemory) => unreachable!(),
    }
}
