//! Reading a journal's file: its frames by their lengths, and then the payloads that are given.
ghost use Rattle.std.specs.Prelude.{ℕ, ◌≡◌, ◌<◌, ◌≤◌, ◌+◌, ◌^◌, length, take, drop, get_or, true, None, IfErr, IfOk, IfSome, OnOk, MatchResult, IsErrOf, nat_lt, ◌==◌, ◌&&◌};
ghost use Rattle.std.specs.Int.{w32, to_be_bytes, from_be_bytes};
ghost use Rattle.std.specs.List.{All};
ghost use Rattle.cat_io.specs.Causes.{HasCause};
ghost use Rattle.cat_keeper.specs.Keeping.{HasKeepCause};
ghost use Rattle.cat_frames.specs.Payload.{has_reading};
ghost use Rattle.cat_journal.specs.Frames.{form_gate, max_entries, payloads, IsAtRest};
ghost use Rattle.cat_journal.specs.Held.{held_count, IsHeld};
ghost use Rattle.cat_journal.specs.Reading.{EndsBefore, HasOpenCause, IsBaseFault, IsBaseRead, IsEntryFault, IsFaultOf, IsHeaded, IsNoDamage, IsPayloadAt, OnlyReads, StandsAt, WalkEndsAt, WalkedTo, HasFrame, payload_at, unread_at};

use crate::fault::OpenFault;
use crate::points::Points;
use cat_frames::{has_reading, is_whole_checkpoint};
use cat_io::{Disk, Failed};
use cat_keeper::{KeepFault, base_place};
use std::alloc::Global;

/// The number that four bytes spell.
pub(crate) fn number_of(bytes: &[u8]) -> u32
    requires { length bytes.now ≡ 4 }
    ensures spelled { to_be_bytes w32 result ≡ bytes.now }
    ensures value { result ≡ from_be_bytes w32 bytes.now }
{
    u32::from_be_bytes([bytes[0], bytes[1], bytes[2], bytes[3]])
}

/// A gate's byte, the number in the four bytes behind it, and the byte behind these.
pub(crate) fn read_gate<D: Disk>(disk: &mut D, at: u64) -> Result<(u8, u32, u8), Failed>
    ensures gate { IfOk result
        (λ g. IfSome (D.told disk.old) (λ bytes. at < length bytes → g.0 ≡ get_or bytes at 0)) }
    ensures size { IfOk result
        (λ g. IfSome (D.told disk.old)
        (λ bytes. at + 5 ≤ length bytes → to_be_bytes w32 g.1 ≡ take 4 (drop (at + 1) bytes))) }
    ensures kind { IfOk result
        (λ g. IfSome (D.told disk.old)
        (λ bytes. at + 5 < length bytes → g.2 ≡ get_or bytes (at + 5) 0)) }
    ensures reads { OnlyReads D.told D.may_leave D.moment D.left_since disk.old disk.new }
    ensures cause { HasCause (D.faults disk.old) (D.faults disk.new) result }
{
    let mut head = [0; 6];
    disk.read_at(at, &mut head)?;
    Ok((head[0], number_of(&head[1..5]), head[5]))
}

/// So many bytes from a place on, in place of what the buffer had.
pub(crate) fn read_into<D: Disk>(
    disk: &mut D,
    at: u64,
    count: u32,
    buffer: &mut Vec<u8>,
) -> Result<(), KeepFault>
    ensures value { OnOk result
        (IfSome (D.told disk.old) (λ bytes. buffer.new.items ≡ take count (drop at bytes))) }
    ensures size { OnOk result (length buffer.new.items ≤ count) }
    ensures never_down { (c : ℕ) → IsErrOf result (KeepFault.Down c) → ⊥ }
    ensures reads { OnlyReads D.told D.may_leave D.moment D.left_since disk.old disk.new }
    ensures cause { HasKeepCause (D.faults disk.old) (D.faults disk.new) result }
{
    buffer.clear();
    buffer.resize(count as usize, 0)?;
    match disk.read_at(at, buffer) {
        Ok(read) => buffer.truncate(read),
        Err(_) => return Err(KeepFault::Fault),
    }
    Ok(())
}

/// The payload behind an open gate, in place of what the buffer had.
pub(crate) fn read_payload<D: Disk>(
    disk: &mut D,
    at: u64,
    buffer: &mut Vec<u8>,
) -> Result<(), KeepFault>
    ensures value { OnOk result
        (IfSome (D.told disk.old) (IsPayloadAt at buffer.new.items)) }
    ensures size { OnOk result (length buffer.new.items < 2 ^ 32) }
    ensures never_down { (c : ℕ) → IsErrOf result (KeepFault.Down c) → ⊥ }
    ensures reads { OnlyReads D.told D.may_leave D.moment D.left_since disk.old disk.new }
    ensures cause { HasKeepCause (D.faults disk.old) (D.faults disk.new) result }
{
    let Ok((_, count, _)) = read_gate(disk, at) else {
        return Err(KeepFault::Fault);
    };
    read_into(disk, at.saturating_add(5), count, buffer)
}

/// What stands at a gate.
#[derive(Drop)]
pub(crate) enum Standing {
    /// It is closed.
    Closed,
    /// It is open, and no length with so many bytes and a gate stands behind it.
    Broken,
    /// A payload of so many bytes, and whether it is of a base's kind.
    Whole(bool, u32),
}

/// Whether a payload of so many bytes, with this one first, is of a base's kind.
fn is_base(size: u32, first: u8) -> bool
    ensures { result ≡ (nat_lt 0 size && first == 8) }
{
    size > 0 && first == 8
}

fn frame_at<D: Disk>(disk: &mut D, at: u64, len: u64) -> Result<Standing, Failed>
    requires inside { at < len }
    requires len { IfSome (D.told disk.old) (λ bytes. len ≡ length bytes) }
    ensures found { IfOk result (λ s. IfSome (D.told disk.old) (λ bytes. StandsAt at bytes s)) }
    ensures next { IfOk result (λ s. EndsBefore at len s) }
    ensures reads { OnlyReads D.told D.may_leave D.moment D.left_since disk.old disk.new }
    ensures cause { HasCause (D.faults disk.old) (D.faults disk.new) result }
{
    let (gate, size, kind) = read_gate(disk, at)?;
    if gate != 1 {
        return Ok(Standing::Closed);
    }
    let room = 6 + u64::from(size);
    if len - at < room {
        return Ok(Standing::Broken);
    }
    Ok(Standing::Whole(is_base(size, kind), size))
}

/// The frames up to the first closed gate, or up to an open one that has none, and whether it was
/// such a one.
fn walk<D: Disk>(
    alloc: Global,
    disk: &mut D,
    len: u64,
    newer: bool,
) -> Result<(Points, bool), OpenFault>
    requires more { 16 < len }
    requires len { IfSome (D.told disk.old) (λ bytes. len ≡ length bytes) }
    requires header { IfSome (D.told disk.old) (IsHeaded newer) }
    ensures found { IfOk result
        (λ x. IfSome (D.told disk.old)
        (λ bytes. WalkedTo newer x.0 bytes × WalkEndsAt x.0.end x.1 bytes)) }
    ensures fits { IfOk result (λ x. (x.0.end < len) × (held_count x.0 ≤ x.0.end)) }
    ensures fault { IfErr result IsNoDamage }
    ensures reads { OnlyReads D.told D.may_leave D.moment D.left_since disk.old disk.new }
    ensures cause { HasOpenCause (D.faults disk.old) (D.faults disk.new) result }
{
    let mut points = Points::new(alloc);
    'frames: loop {
        match frame_at(disk, points.end, len) {
            Err(_) => return Err(OpenFault::Fault),
            Ok(Standing::Closed) => return Ok((points, false)),
            Ok(Standing::Broken) => return Ok((points, true)),
            Ok(Standing::Whole(base, size)) => {
                match points.pass(newer && base, size) {
                    Ok(()) => {}
                    Err(_) => return Err(OpenFault::NoMemory),
                }
            }
        }
    }
}

/// The place of the base, which has to have a reading; 0 where there is none.
fn read_base<D: Disk>(alloc: Global, disk: &mut D, points: &Points) -> Result<u32, OpenFault>
    ensures found { IfSome (D.told disk.old)
        (λ bytes. (0 < points.now.before → HasFrame bytes points.now.base)
        → MatchResult result (IsBaseRead points.now bytes) (IsBaseFault points.now bytes)) }
    ensures reads { OnlyReads D.told D.may_leave D.moment D.left_since disk.old disk.new }
    ensures cause { HasOpenCause (D.faults disk.old) (D.faults disk.new) result }
{
    if points.before == 0 {
        return Ok(0);
    }
    let mut buffer = Vec::new(alloc);
    match read_payload(disk, points.base, &mut buffer) {
        Ok(()) => {}
        Err(KeepFault::NoMemory) => return Err(OpenFault::NoMemory),
        Err(_) => return Err(OpenFault::Fault),
    }
    match is_whole_checkpoint(alloc, &buffer) {
        Ok(true) => Ok(base_place(&buffer)),
        Ok(false) => Err(OpenFault::Damaged(points.base)),
        Err(_) => Err(OpenFault::NoMemory),
    }
}

const MAX_ENTRIES: usize = 4_294_967_295;

/// Whether the payload behind a gate is an entry's.
fn is_entry<D: Disk>(
    alloc: Global,
    disk: &mut D,
    at: u64,
    buffer: &mut Vec<u8>,
) -> Result<bool, OpenFault>
    ensures found { IfOk result
        (λ b. IfSome (D.told disk.old)
        (λ bytes. HasFrame bytes at → b ≡ has_reading (payload_at bytes at))) }
    ensures fault { IfErr result IsNoDamage }
    ensures reads { OnlyReads D.told D.may_leave D.moment D.left_since disk.old disk.new }
    ensures cause { HasOpenCause (D.faults disk.old) (D.faults disk.new) result }
{
    match read_payload(disk, at, buffer) {
        Ok(()) => {}
        Err(KeepFault::NoMemory) => return Err(OpenFault::NoMemory),
        Err(_) => return Err(OpenFault::Fault),
    }
    match has_reading(alloc, buffer) {
        Ok(readable) => Ok(readable),
        Err(_) => Err(OpenFault::NoMemory),
    }
}

/// Each of the entries behind the base has to have a reading, and they mayn't be too many.
fn read_entries<D: Disk>(alloc: Global, disk: &mut D, gates: &[u64]) -> Result<(), OpenFault>
    ensures found { IfSome (D.told disk.old)
        (λ bytes. All (HasFrame bytes) gates.now
        → MatchResult result (λ _. unread_at gates.now bytes ≡ None)
        (IsEntryFault gates.now bytes)) }
    ensures few { OnOk result (length gates.now ≤ max_entries) }
    ensures reads { OnlyReads D.told D.may_leave D.moment D.left_since disk.old disk.new }
    ensures cause { HasOpenCause (D.faults disk.old) (D.faults disk.new) result }
{
    let mut buffer = Vec::new(alloc);
    for i in 0..gates.len() {
        if i >= MAX_ENTRIES {
            return Err(OpenFault::Damaged(gates[i]));
        }
        match is_entry(alloc, disk, gates[i], &mut buffer) {
            Ok(true) => {}
            Ok(false) => return Err(OpenFault::Damaged(gates[i])),
            Err(fault) => return Err(fault),
        }
    }
    Ok(())
}

/// Where the payloads stand that are given, and the closed gate behind them.
pub(crate) fn read_frames<D: Disk>(
    alloc: Global,
    disk: &mut D,
    len: u64,
    newer: bool,
) -> Result<Points, OpenFault>
    requires more { 16 < len }
    requires len { IfSome (D.told disk.old) (λ bytes. len ≡ length bytes) }
    requires header { IfSome (D.told disk.old) (IsHeaded newer) }
    ensures found { IfSome (D.told disk.old)
        (λ bytes. MatchResult result
        (λ x. IsHeld (form_gate bytes) (payloads bytes) x bytes
        × IsAtRest (form_gate bytes) (payloads bytes) x.end bytes)
        (IsFaultOf bytes)) }
    ensures fits { IfOk result (λ x. (x.end < len)
        × (held_count x ≤ x.end)
        × (length x.gates.items ≤ max_entries)) }
    ensures reads { OnlyReads D.told D.may_leave D.moment D.left_since disk.old disk.new }
    ensures cause { HasOpenCause (D.faults disk.old) (D.faults disk.new) result }
{
    let (mut points, broken) = match walk(alloc, disk, len, newer) {
        Ok(walked) => walked,
        Err(fault) => return Err(fault),
    };
    match read_base(alloc, disk, &points) {
        Ok(first) => points.first = first,
        Err(fault) => return Err(fault),
    }
    match read_entries(alloc, disk, &points.gates) {
        Ok(()) => {}
        Err(fault) => return Err(fault),
    }
    if broken {
        return Err(OpenFault::Damaged(points.end));
    }
    Ok(points)
}
