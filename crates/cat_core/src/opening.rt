//! What a keeper's payloads lead to.

ghost use Rattle.std.specs.Prelude.{ℕ, List, ◌≡◌, ◌≢◌, ◌≤◌, ◌<◌, ◌+◌, ◌^◌, None, Some, Err, false, IfOk, IfSome, IsErrOf, OnOk};
ghost use Rattle.sha2.specs.Sha256.{sha256};
ghost use Rattle.cat_frames.specs.Bases.{opened_by, state_in};
ghost use Rattle.cat_frames.specs.Checkpoints.{checkpoint_code};
ghost use Rattle.cat_io.specs.Causes.{Rose};
ghost use Rattle.cat_keeper.specs.Bases.{base_place};
ghost use Rattle.cat_frames.specs.Standing.{may_start};
ghost use Rattle.cat_state.specs.Kept.{reached};
ghost use Rattle.cat_core.specs.Opening.{HasBase, IsAdded, IsEntryAt, IsIllegalAt, IsLedTo, WasRead, led_base, next_by};
ghost use Rattle.cat_core.specs.Replays.{Begins, ReadsBase, StartsBy, StartsOn, replayed_from};
ghost use Rattle.cat_core.specs.Stored.{opened_held};
ghost use Rattle.cat_core.specs.Sweeping.{IsFollowed};

use crate::ledger::Ledger;
use crate::replay::Replay;
use crate::tickets::Start;
use cat_codes::bytes::Bytes;
use cat_codes::fault::{FieldFault, NoMemory};
use cat_frames::{Checkpoint, checkpoint_from_bytes};
use cat_keeper::{KeepFault, Keeper, base_place};
use cat_model::limits::Limits;
use std::alloc::Global;
use thiserror::Error;

/// Why a store wasn't opened.
#[derive(Clone, Copy, Debug, PartialEq, Eq, Error)]
pub enum StoreFault {
    /// A fault of the keeper, which it counted.
    #[error("the keeper failed")]
    Fault,
    /// The entry at this place is the first that has no reading or may not follow those before it;
    /// or the base is of this place, and no log may start from it.
    #[error("the entry at place {0} may not stand there")]
    Illegal(u64),
    /// Memory ran out.
    #[error("memory ran out")]
    NoMemory,
}

impl From<NoMemory> for StoreFault {
    ghost use Rattle.std.specs.Prelude.{◌≡◌};
    ghost use Rattle.cat_core.specs.declared.opening.StoreFault.TheVariants as faults;

    ghost from_gives = { λ _ e. e ≡ faults.NoMemory };

    fn from(_: NoMemory) -> StoreFault {
        StoreFault::NoMemory
    }
}

/// Adds the keeper's entry of this number behind its base, from 0.
fn add_payload<K: Keeper>(
    alloc: Global,
    keeper: &mut K,
    replay: &mut Replay,
    i: u32,
) -> Result<(), StoreFault>
    requires there { i < K.kept keeper.old }
    requires followed { IsFollowed replay.old.drafts.keys replay.old.taken.items replay.old.ledger }
    ensures added { OnOk result
        ((payload : List ℕ) × IsEntryAt (K.told keeper.old) i payload
        × IsAdded (replayed_from replay.old) replay.old.ledger replay.new.ledger payload) }
    ensures from { OnOk result (replayed_from replay.new ≡ replayed_from replay.old) }
    ensures followed { OnOk result
        (IsFollowed replay.new.drafts.keys replay.new.taken.items replay.new.ledger) }
    ensures illegal { (place : ℕ) → IsErrOf result (StoreFault.Illegal place)
        → (place ≡ replay.old.ledger.base.place + i + 1)
        × ((payload : List ℕ) × IsEntryAt (K.told keeper.old) i payload
        × (next_by (replayed_from replay.old) replay.old.ledger payload ≡ None)) }
    ensures fault { IsErrOf result StoreFault.Fault
        → Rose (K.faults keeper.old) (K.faults keeper.new) }
    ensures level { (IsErrOf result StoreFault.Fault → ⊥)
        → K.faults keeper.new ≡ K.faults keeper.old }
    ensures stays { WasRead K.Keeper keeper.old keeper.new }
{
    match keeper.entry(alloc, i) {
        Ok(payload) => {
            let first = replay.ledger.first();
            if replay.add(alloc, payload.as_slice())? {
                Ok(())
            } else {
                Err(StoreFault::Illegal(u64::from(first) + u64::from(i) + 1))
            }
        }
        Err(KeepFault::Fault) => Err(StoreFault::Fault),
        Err(KeepFault::NoMemory) => Err(StoreFault::NoMemory),
        Err(KeepFault::Down(_)) => unreachable!(),
    }
}

/// The base of a keeper.
fn base_of<K: Keeper>(alloc: Global, keeper: &mut K) -> Result<Option<Bytes>, StoreFault>
    ensures base { IfOk result (HasBase (K.told keeper.old)) }
    ensures legal { (place : ℕ) → IsErrOf result (StoreFault.Illegal place) → ⊥ }
    ensures fault { IsErrOf result StoreFault.Fault
        → Rose (K.faults keeper.old) (K.faults keeper.new) }
    ensures level { (IsErrOf result StoreFault.Fault → ⊥)
        → K.faults keeper.new ≡ K.faults keeper.old }
    ensures stays { WasRead K.Keeper keeper.old keeper.new }
{
    match keeper.base(alloc) {
        Ok(base) => Ok(base),
        Err(KeepFault::Fault) => Err(StoreFault::Fault),
        Err(KeepFault::NoMemory) => Err(StoreFault::NoMemory),
        Err(KeepFault::Down(_)) => unreachable!(),
    }
}

/// The checkpoint that bytes spell, if they spell one.
fn read_base(alloc: Global, base: &[u8]) -> Result<Option<Checkpoint>, NoMemory>
    ensures { IfOk result (ReadsBase base.now) }
{
    match checkpoint_from_bytes(alloc, base) {
        Ok(checkpoint) => Ok(Some(checkpoint)),
        Err(FieldFault::NoMemory) => Err(NoMemory),
        Err(_) => Ok(None),
    }
}

/// What a log starts from that goes on from a checkpoint, where the keeper has so many payloads and
/// has counted so many faults, unless none may.
#[tactic(auto, using(crate::proofs::Naming::fits_names, cat_frames::specs::BaseLaws::fits_ascend))]
fn start_on(
    alloc: Global,
    limits: Limits,
    checkpoint: Checkpoint,
    payloads: u64,
    faults: u64,
) -> Result<Option<Replay>, NoMemory>
    requires log { limits.log ≤ 4294967295 }
    requires commits { limits.commits ≤ 4294967295 }
    requires fits { (checkpoint_code sha256).Fits checkpoint }
    ensures starts { IfOk result
        (λ found. IfSome found (StartsOn limits payloads faults checkpoint)) }
    ensures refused { IfOk result
        (λ found. found ≡ None → may_start sha256 (state_in limits checkpoint) ≡ false) }
{
    let start = Start {
        draft: checkpoint.draft,
        drafts: checkpoint.drafts.clone()?,
        payloads,
        faults,
    };
    match Ledger::from_checkpoint(alloc, limits, checkpoint)? {
        None => Ok(None),
        Some(ledger) => {
            ledger.catalogue().contents().known();
            Ok(Some(Replay::new(alloc, ledger, start)?))
        }
    }
}

/// What a log starts from that goes on from these bytes, where the keeper has so many payloads and
/// has counted so many faults.
#[tactic(auto, using(crate::proofs::Led::refused_start))]
fn start_at(
    alloc: Global,
    base: &Bytes,
    limits: Limits,
    payloads: u64,
    faults: u64,
) -> Result<Replay, StoreFault>
    requires log { limits.log ≤ 4294967295 }
    requires commits { limits.commits ≤ 4294967295 }
    ensures starts { IfOk result (StartsBy limits payloads faults (Some base.now)) }
    ensures illegal { (place : ℕ) → IsErrOf result (StoreFault.Illegal place)
        → (place ≡ base_place base.now)
        × (place < 2 ^ 32)
        × ((entries : List (List ℕ))
        → led_base place entries (opened_by limits payloads faults (Some base.now)) ≡ Err place) }
    ensures no_fault { IsErrOf result StoreFault.Fault → ⊥ }
{
    let place = base_place(base.as_slice());
    match read_base(alloc, base.as_slice()) {
        Ok(None) => Err(StoreFault::Illegal(u64::from(place))),
        Ok(Some(checkpoint)) => match start_on(alloc, limits, checkpoint, payloads, faults) {
            Ok(None) => Err(StoreFault::Illegal(u64::from(place))),
            Ok(Some(replay)) => Ok(replay),
            Err(_) => Err(StoreFault::NoMemory),
        },
        Err(_) => Err(StoreFault::NoMemory),
    }
}

/// What a log starts from that goes on from nothing.
fn start_empty(
    alloc: Global,
    limits: Limits,
    payloads: u64,
    faults: u64,
) -> Result<Replay, NoMemory>
    requires log { limits.log ≤ 4294967295 }
    requires commits { limits.commits ≤ 4294967295 }
    ensures { IfOk result (StartsBy limits payloads faults None) }
{
    let ledger = Ledger::new(alloc, limits)?;
    Replay::new(alloc, ledger, Start::empty(alloc, payloads, faults))
}

/// What a log starts from that goes on from a base, or from nothing.
fn start_from(
    alloc: Global,
    base: Option<Bytes>,
    limits: Limits,
    payloads: u64,
    faults: u64,
) -> Result<Replay, StoreFault>
    requires log { limits.log ≤ 4294967295 }
    requires commits { limits.commits ≤ 4294967295 }
    ensures starts { IfOk result (StartsBy limits payloads faults base) }
    ensures illegal { (place : ℕ) → IsErrOf result (StoreFault.Illegal place)
        → (bytes : List ℕ)
        × (base ≡ Some bytes)
        × (place ≡ base_place bytes)
        × (place < 2 ^ 32)
        × ((entries : List (List ℕ))
        → led_base place entries (opened_by limits payloads faults (Some bytes)) ≡ Err place) }
    ensures no_fault { IsErrOf result StoreFault.Fault → ⊥ }
{
    match base {
        None => match start_empty(alloc, limits, payloads, faults) {
            Ok(replay) => Ok(replay),
            Err(_) => Err(StoreFault::NoMemory),
        },
        Some(base) => start_at(alloc, &base, limits, payloads, faults),
    }
}

/// A start, if it is at this place.
fn at_place(replay: Replay, place: u32) -> Result<Replay, StoreFault>
    ensures ok { IfOk result (λ found. (found ≡ replay) × (found.ledger.base.place ≡ place)) }
    ensures illegal { (at : ℕ) → IsErrOf result (StoreFault.Illegal at)
        → (at ≡ place) × (at < 2 ^ 32) × (replay.ledger.base.place ≢ place) }
    ensures no_fault { IsErrOf result StoreFault.Fault → ⊥ }
{
    if replay.ledger.first() != place {
        return Err(StoreFault::Illegal(u64::from(place)));
    }
    Ok(replay)
}

/// What the keeper's log starts from. A base of another place than the keeper's, as one that isn't
/// told may be, is refused.
fn started<K: Keeper>(alloc: Global, keeper: &mut K, limits: Limits) -> Result<Replay, StoreFault>
    requires log { limits.log ≤ 4294967295 }
    requires commits { limits.commits ≤ 4294967295 }
    ensures starts { IfOk result
        (λ replay. Begins (K.told keeper.old) limits (K.faults keeper.new) replay) }
    ensures first { IfOk result (λ replay. replay.ledger.base.place ≡ K.start keeper.old) }
    ensures illegal { (place : ℕ) → IsErrOf result (StoreFault.Illegal place)
        → IsIllegalAt (K.told keeper.old) limits place }
    ensures fault { IsErrOf result StoreFault.Fault
        → Rose (K.faults keeper.old) (K.faults keeper.new) }
    ensures level { (IsErrOf result StoreFault.Fault → ⊥)
        → K.faults keeper.new ≡ K.faults keeper.old }
    ensures stays { WasRead K.Keeper keeper.old keeper.new }
{
    let payloads = keeper.total();
    let first = keeper.first();
    let base = base_of(alloc, keeper)?;
    let replay = start_from(alloc, base, limits, payloads, keeper.fault_count())?;
    at_place(replay, first)
}

/// The ledger that the keeper's payloads lead to, and what is held of the log before it.
pub(crate) fn led_to<K: Keeper>(
    alloc: Global,
    keeper: &mut K,
    limits: Limits,
) -> Result<(Ledger, Start), StoreFault>
    requires log { limits.log ≤ 4294967295 }
    requires commits { limits.commits ≤ 4294967295 }
    ensures led { IfOk result
        (λ t. IsLedTo (K.told keeper.old) (K.kept keeper.old) limits (opened_held t.0.base t.1)
        t.0) }
    ensures began { IfOk result (λ t. t.1.faults ≡ K.faults keeper.new) }
    ensures place { IfOk result (λ t. t.0.state.place ≡ reached K.Keeper keeper.old) }
    ensures illegal { (place : ℕ) → IsErrOf result (StoreFault.Illegal place)
        → IsIllegalAt (K.told keeper.old) limits place }
    ensures fault { IsErrOf result StoreFault.Fault
        → Rose (K.faults keeper.old) (K.faults keeper.new) }
    ensures level { (IsErrOf result StoreFault.Fault → ⊥)
        → K.faults keeper.new ≡ K.faults keeper.old }
    ensures stays { WasRead K.Keeper keeper.old keeper.new }
{
    let mut replay = started(alloc, keeper, limits)?;
    for i in 0..keeper.count() {
        add_payload(alloc, keeper, &mut replay, i)?;
    }
    let Replay { ledger, start, .. } = replay;
    Ok((ledger, start))
}
