//! Opening a journal's file, which an empty one is made.
ghost use Rattle.std.specs.Prelude.{ℕ, List, [], ◌++◌, ◌≡◌, ◌≢◌, ◌<◌, ◌≤◌, ◌+◌, ◌^◌, length, Ok, IsErr, IfErr, IfOk, IfSome, OnOk, MatchResult, if◌then◌else◌};
ghost use Rattle.cat_io.specs.Crashes.{LeavesOnly, Told, Only};
ghost use Rattle.cat_journal.specs.Frames.{form_gate, is_newer, new_journal, max_entries};
ghost use Rattle.cat_journal.specs.Held.{held_count};
ghost use Rattle.cat_journal.specs.Reading.{OnlyReads, OpensOnly, IsFaultOf, IsHead, IsHeaded, IsOpened, HasOpenCause};

use crate::append::persist;
use crate::fault::OpenFault;
use crate::points::Points;
use crate::reading::{number_of, read_frames};
use cat_io::Disk;
use std::alloc::Global;

const MAGIC: [u8; 8] = *b"NESSIECJ";

/// What stands behind the version, in front of the format's gate.
const ZEROS: [u8; 3] = [0; 3];

/// The header of format 2, and a closed gate.
const NEW: [u8; 17] = *b"NESSIECJ\0\0\0\x01\0\0\0\x01\0";

/// What the first 16 bytes say, whatever stands behind them: whether they are a header of format 2
/// or of format 1.
fn check_head(head: &[u8]) -> Result<bool, OpenFault>
    ensures cause { (count : ℕ) → HasOpenCause count count result }
    ensures found { length head.now ≡ 16
        → (rest : List ℕ) → 0 < length rest
        → MatchResult result (λ newer. IsHead newer head.now) (IsFaultOf (head.now ++ rest)) }
{
    if head.len() < 16 {
        return Err(OpenFault::Damaged(0));
    }
    if &head[..8] != MAGIC.as_slice() {
        return Err(OpenFault::Damaged(0));
    }
    let version = number_of(&head[8..12]);
    if version != 1 {
        return Err(OpenFault::Version(version));
    }
    if &head[12..15] != ZEROS.as_slice() {
        return Err(OpenFault::Damaged(12));
    }
    Ok(head[15] == 1)
}

fn check_header<D: Disk>(disk: &mut D, len: u64) -> Result<bool, OpenFault>
    requires some { 0 < len }
    requires len { IfSome (D.told disk.old) (λ bytes. len ≡ length bytes) }
    ensures found { IfSome (D.told disk.old)
        (λ bytes. MatchResult result (λ newer. IsHeaded newer bytes) (IsFaultOf bytes)) }
    ensures more { OnOk result (16 < len) }
    ensures reads { OnlyReads D.told D.may_leave D.moment D.left_since disk.old disk.new }
    ensures cause { HasOpenCause (D.faults disk.old) (D.faults disk.new) result }
{
    if len < 17 {
        return Err(OpenFault::Damaged(0));
    }
    let mut head = [0; 16];
    match disk.read_at(0, &mut head) {
        Ok(count) => check_head(&head[..count]),
        Err(_) => Err(OpenFault::Fault),
    }
}

/// The number of the format.
pub(crate) fn format_of(newer: bool) -> u32
    ensures { result ≡ (if newer then 2 else 1) }
{
    if newer { 2 } else { 1 }
}

/// Makes a new journal of an empty file.
fn create<D: Disk>(alloc: Global, disk: &mut D) -> Result<(Points, bool), OpenFault>
    requires empty { IfSome (D.told disk.old) (λ bytes. bytes ≡ []) }
    requires durable { Only (D.told disk.old) (D.may_leave disk.old) }
    ensures found { Told (D.told disk.old) (D.told disk.new)
        (λ before after. MatchResult result
        (λ x. IsOpened before after x.0 × (is_newer (form_gate after) ≡ x.1))
        (IsFaultOf before)) }
    ensures new { OnOk result
        (Told (D.told disk.old) (D.told disk.new)
        (λ before after. before ≡ [] → after ≡ new_journal)) }
    ensures empty { IsErr result
        → Told (D.told disk.old) (D.told disk.new)
        (λ before after. before ≡ [] → length after ≤ 17) }
    ensures fault { IfErr result (λ e. e ≡ OpenFault.Fault) }
    ensures images { IfSome (D.told disk.old)
        (λ _. LeavesOnly D.moment D.left_since disk.old disk.new (λ c. length c ≤ 17)) }
    ensures durable { OnOk result (Only (D.told disk.new) (D.may_leave disk.new)) }
    ensures fits { IfOk result (λ x. (x.0.end + 1 < 2 ^ 64)
        × (held_count x.0 ≤ x.0.end)
        × (length x.0.gates.items ≤ max_entries)) }
    ensures cause { HasOpenCause (D.faults disk.old) (D.faults disk.new) result }
{
    match persist(disk, 0, &NEW) {
        Ok(()) => Ok((Points::new(alloc), true)),
        Err(_) => Err(OpenFault::Fault),
    }
}

/// Where the file's payloads stand, and whether it is of format 2.
pub(crate) fn load<D: Disk>(alloc: Global, disk: &mut D) -> Result<(Points, bool), OpenFault>
    ensures found { Told (D.told disk.old) (D.told disk.new)
        (λ before after. MatchResult result
        (λ x. IsOpened before after x.0 × (is_newer (form_gate after) ≡ x.1))
        (IsFaultOf before)) }
    ensures new { OnOk result
        (Told (D.told disk.old) (D.told disk.new)
        (λ before after. before ≡ [] → after ≡ new_journal)) }
    ensures empty { IsErr result
        → Told (D.told disk.old) (D.told disk.new)
        (λ before after. before ≡ [] → length after ≤ 17) }
    ensures unspoiled { IfErr result
        (λ e. e ≢ OpenFault.Fault → Told (D.told disk.old) (D.told disk.new) (λ b a. a ≡ b)) }
    ensures durable { OnOk result (Only (D.told disk.new) (D.may_leave disk.new)) }
    ensures images { IfSome (D.told disk.old)
        (OpensOnly D.may_leave D.moment D.left_since disk.old disk.new) }
    ensures unwritten { IfSome (D.told disk.old)
        (λ bytes. 0 < length bytes
        → OnlyReads D.told D.may_leave D.moment D.left_since disk.old disk.new) }
    ensures fits { IfOk result (λ x. (x.0.end + 1 < 2 ^ 64)
        × (held_count x.0 ≤ x.0.end)
        × (length x.0.gates.items ≤ max_entries)) }
    ensures cause { HasOpenCause (D.faults disk.old) (D.faults disk.new) result }
{
    if disk.sync().is_err() {
        return Err(OpenFault::Fault);
    }
    let Ok(len) = disk.len() else {
        return Err(OpenFault::Fault);
    };
    if len == 0 {
        return create(alloc, disk);
    }
    let newer = match check_header(disk, len) {
        Ok(newer) => newer,
        Err(fault) => return Err(fault),
    };
    match read_frames(alloc, disk, len, newer) {
        Ok(points) => Ok((points, newer)),
        Err(fault) => Err(fault),
    }
}
