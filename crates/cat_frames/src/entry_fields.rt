//! Log entries as fields.

ghost use Rattle.std.specs.Prelude.{◌≡◌, ◌++◌, IsTrue, OnOk};
ghost use Rattle.sha2.specs.Sha256.{sha256};
ghost use Rattle.cat_codes.specs.declared.fault.FieldFault.TheVariants.{Range};
ghost use Rattle.cat_codes.specs.Read.{Reads};
ghost use Rattle.cat_codes.specs.Code.{only, u8_code};
ghost use Rattle.cat_frames.specs.Entries.{action_code, action_is_logged, action_number, draft_code, head_code, is_draft_of, is_head_of, is_kind, is_logged, leaves_head, log_entry_code, of_nobody, opens_draft};

use crate::command_fields::{command_number, read_command, write_command};
use crate::sweep_fields::{read_sweep, write_sweep};
use cat_codes::fault::{FieldFault, NoMemory};
use cat_codes::field::Field;
use cat_codes::reader::Reader;
use cat_codes::writer::Writer;
use cat_model::log_entry::{Action, LogEntry};
use cat_model::moment::Moment;
use cat_names::hash::Hash;
use std::alloc::Global;

/// The number of a kind, and else Range.
fn read_kind(from: &mut Reader<'_>) -> Result<u8, FieldFault>
    ensures { Reads result from.new ((only Range is_kind u8_code).at from.old) }
{
    let kind = from.u8()?;
    if kind < 1 || kind > 7 {
        return Err(FieldFault::Range);
    }
    Ok(kind)
}

/// Whether a call of this kind opens a draft.
fn opens_draft(kind: u8) -> bool
    ensures { result ≡ opens_draft kind }
{
    3 < kind && kind < 7
}

/// Whether an entry of this kind may have this draft.
fn is_draft_of(kind: u8, draft: u64) -> bool
    ensures { result ≡ is_draft_of kind draft }
{
    if opens_draft(kind) {
        draft > 0
    } else {
        draft == 0
    }
}

/// The draft of an entry of this kind, and else Range.
fn read_draft(from: &mut Reader<'_>, kind: u8) -> Result<u64, FieldFault>
    ensures { Reads result from.new ((draft_code kind).at from.old) }
{
    let draft = from.u64()?;
    if !is_draft_of(kind, draft) {
        return Err(FieldFault::Range);
    }
    Ok(draft)
}

/// Whether a call of this kind leaves a head.
fn leaves_head(kind: u8) -> bool
    ensures { result ≡ leaves_head kind }
{
    kind != 3 && kind != 7
}

/// The head that an entry of this kind left.
fn read_head(from: &mut Reader<'_>, alloc: Global, kind: u8) -> Result<Option<Hash>, FieldFault>
    ensures { Reads result from.new ((head_code (leaves_head kind)).at from.old) }
{
    if !leaves_head(kind) {
        return Ok(None);
    }
    Ok(Some(Hash::read(from, alloc)?))
}

fn write_head(out: &mut Writer, kind: u8, head: Option<Hash>) -> Result<(), NoMemory>
    requires { IsTrue (is_head_of kind head) }
    ensures spelled { OnOk result (out.new ≡ out.old ++ (head_code (leaves_head kind)).spell head) }
    ensures fits { OnOk result ((head_code (leaves_head kind)).Fits head) }
{
    if !leaves_head(kind) {
        return Ok(());
    }
    match head {
        None => Ok(()),
        Some(head) => head.write(out),
    }
}

/// The number of the kind of what was accepted.
fn action_number(action: &Action) -> u8
    ensures { result ≡ action_number action.now }
{
    match action {
        Action::Call(command) => command_number(command),
        Action::Sweep(_) => 7,
    }
}

/// What was accepted, of the kind of this number, with this draft.
fn read_action(
    from: &mut Reader<'_>,
    alloc: Global,
    draft: u64,
    kind: u8,
) -> Result<Action, FieldFault>
    ensures { Reads result from.new ((action_code sha256 draft kind).at from.old) }
{
    if kind == 7 {
        return Ok(Action::Sweep(read_sweep(from, alloc)?));
    }
    Ok(Action::Call(read_command(from, alloc, draft, kind)?))
}

fn write_action(
    alloc: Global,
    out: &mut Writer,
    draft: u64,
    action: &Action,
) -> Result<(), NoMemory>
    requires { IsTrue (action_is_logged sha256 draft action.now) }
    ensures spelled { OnOk result
        (out.new
        ≡ out.old ++ (action_code sha256 draft (action_number action.now)).spell action.now) }
    ensures fits { OnOk result
        ((action_code sha256 draft (action_number action.now)).Fits action.now) }
{
    match action {
        Action::Call(command) => write_command(alloc, out, draft, command),
        Action::Sweep(sweep) => write_sweep(alloc, out, sweep),
    }
}

/// An entry, with the caller 0.
#[tactic(auto, unfolding(crate::specs::Entries::log_entry_code))]
pub(crate) fn read_entry(from: &mut Reader<'_>, alloc: Global) -> Result<LogEntry, FieldFault>
    ensures { Reads result from.new ((log_entry_code sha256).at from.old) }
{
    let kind = read_kind(from)?;
    let place = from.u32()?;
    let draft = read_draft(from, kind)?;
    let moment = Moment::read(from, alloc)?;
    let action = read_action(from, alloc, draft, kind)?;
    // No `?` here, which would write out the action's drop once more.
    match read_head(from, alloc, kind) {
        Ok(head) => Ok(LogEntry {
            place,
            caller: 0,
            draft,
            moment,
            action,
            head,
        }),
        Err(fault) => Err(fault),
    }
}

/// The entry, but for its caller.
#[tactic(auto, using(crate::proofs::Logged::logged_draft, crate::proofs::Logged::logged_head, crate::proofs::Logged::logged_action, crate::proofs::Logged::numbers_are_kinds), unfolding(crate::specs::Entries::log_entry_code))]
pub(crate) fn write_entry(alloc: Global, out: &mut Writer, entry: &LogEntry) -> Result<(), NoMemory>
    requires { IsTrue (is_logged sha256 entry.now) }
    ensures spelled { OnOk result (out.new ≡ out.old ++ (log_entry_code sha256).spell entry.now) }
    ensures fits { OnOk result ((log_entry_code sha256).Fits (of_nobody entry.now)) }
{
    let kind = action_number(&entry.action);
    out.u8(kind)?;
    out.u32(entry.place)?;
    out.u64(entry.draft)?;
    entry.moment.write(out)?;
    write_action(alloc, out, entry.draft, &entry.action)?;
    write_head(out, kind, entry.head)?;
    Ok(())
}
