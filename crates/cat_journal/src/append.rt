//! The disk calls of an append, of a rebase, and of a migration.
ghost use Rattle.std.specs.Prelude.{ℕ, List, [], ◌∷◌, ◌++◌, ◌≡◌, ◌<◌, ◌≤◌, ◌+◌, ◌^◌, length, IsErr, IfSome, OnOk, ⊤, None};
ghost use Rattle.cat_io.specs.Causes.{HasCause};
ghost use Rattle.cat_io.specs.Crashes.{put, Torn, Told, Only};
ghost use Rattle.cat_io.specs.Crashes.{LeavesOnly};
ghost use Rattle.cat_journal.specs.Frames.{form_gate, is_newer, payloads, frame, framed_at, unread, IsAtRest, MayHoldOneMore};

use cat_io::{Disk, Failed};

/// A write and a sync. At each moment a crash leaves what it might before, torn at most where the
/// bytes go.
pub(crate) fn persist<D: Disk>(disk: &mut D, at: u64, bytes: &[u8]) -> Result<(), Failed>
    ensures past { 2 ^ 64 ≤ at + length bytes.now → IsErr result }
    ensures part { Told (D.told disk.old) (D.told disk.new) (Torn at (length bytes.now)) }
    ensures written { OnOk result
        (Told (D.told disk.old) (D.told disk.new) (λ old new. new ≡ put at bytes.now old)) }
    ensures durable { OnOk result (Only (D.told disk.new) (D.may_leave disk.new)) }
    ensures any_moment { LeavesOnly D.moment D.left_since disk.old disk.new
        (λ c. (d : List ℕ) × D.may_leave disk.old d × Torn at (length bytes.now) d c) }
    ensures cause { HasCause (D.faults disk.old) (D.faults disk.new) result }
{
    disk.write_at(at, bytes)?;
    disk.sync()
}

/// Writes a frame behind the closed gate, with the next gate closed, and then opens the gate. Nothing
/// else is written.
pub(crate) fn append_frame<D: Disk>(
    disk: &mut D,
    gate: u64,
    payload: &[u8],
    bytes: &[u8],
) -> Result<(), Failed>
    requires at_rest { IfSome (D.told disk.old)
        (λ old. IsAtRest (form_gate old) (payloads old) gate old) }
    requires durable { Only (D.told disk.old) (D.may_leave disk.old) }
    requires reading { IfSome (D.told disk.old)
        (λ old. unread (is_newer (form_gate old)) (payloads old ++ payload.now ∷ []) ≡ None) }
    requires fits { gate + 1 < 2 ^ 64 }
    requires short { length payload.now < 2 ^ 32 }
    requires spelled { bytes.now ≡ frame payload.now ++ 0 ∷ [] }
    ensures stays { Told (D.told disk.old) (D.told disk.new) (λ old new. ⊤) }
    ensures written { OnOk result
        (Told (D.told disk.old) (D.told disk.new)
        (λ old new. new ≡ framed_at gate payload.now old)) }
    ensures added { OnOk result
        (Told (D.told disk.old) (D.told disk.new)
        (λ old new. (payloads new ≡ payloads old ++ payload.now ∷ [])
        × (form_gate new ≡ form_gate old)
        × IsAtRest (form_gate new) (payloads new) (gate + 5 + length payload.now) new)) }
    ensures durable { OnOk result (Only (D.told disk.new) (D.may_leave disk.new)) }
    ensures fits { OnOk result (gate + 6 + length payload.now < 2 ^ 64) }
    ensures any_moment { LeavesOnly D.moment D.left_since disk.old disk.new
        (λ c. IfSome (D.told disk.old)
        (λ old. MayHoldOneMore (form_gate old) (payloads old) gate payload.now c)) }
    ensures cause { HasCause (D.faults disk.old) (D.faults disk.new) result }
{
    persist(disk, gate + 1, bytes)?;
    persist(disk, gate, &[1])
}
