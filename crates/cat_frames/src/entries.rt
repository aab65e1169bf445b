//! Log entries as bytes.

ghost use Rattle.std.specs.Prelude.{◌≡◌, IfOk, IsTrue, Ok};
ghost use Rattle.sha2.specs.Sha256.{sha256};
ghost use Rattle.cat_codes.specs.Read.{Gives};
ghost use Rattle.cat_codes.specs.Code.{whole};
ghost use Rattle.cat_frames.specs.Entries.{is_logged, log_entry_code, of_nobody};
ghost use Rattle.cat_frames.specs.Payload.{has_reading};

use crate::entry_fields::{read_entry, write_entry};
use cat_codes::bytes::Bytes;
use cat_codes::fault::{FieldFault, NoMemory};
use cat_codes::reader::Reader;
use cat_codes::writer::Writer;
use cat_model::log_entry::LogEntry;
use std::alloc::Global;

/// The bytes of an entry: the number of its kind, its place, draft and moment, the call or the
/// sweep, and the head that it left, none for a delete and for a sweep. More than 4,294,967,295
/// bytes are answered as want of memory.
#[tactic(auto, using(crate::proofs::Again::reads_again, crate::proofs::Again::told_again, crate::proofs::Again::spelled_as_of_nobody))]
pub fn to_bytes(alloc: Global, entry: &LogEntry) -> Result<Bytes, NoMemory>
    requires { IsTrue (is_logged sha256 entry.now) }
    ensures spelled { IfOk result (λ bytes. bytes ≡ (log_entry_code sha256).spell entry.now) }
    ensures reads { IfOk result (λ bytes. IsTrue (has_reading bytes)) }
    // What is read back is the entry, of nobody.
    ensures again { IfOk result
        (λ bytes. whole (log_entry_code sha256) bytes ≡ Ok (of_nobody entry.now)) }
{
    let mut out = Writer::new(alloc);
    write_entry(alloc, &mut out, entry)?;
    Ok(Bytes::from_vec(out.finish())?)
}

#[tactic(auto, unfolding(cat_codes::specs::Code::whole))]
fn all_of(alloc: Global, bytes: &[u8]) -> Result<LogEntry, FieldFault>
    ensures { Gives result (whole (log_entry_code sha256) bytes.now) }
{
    let mut from = Reader::new(bytes);
    let entry = read_entry(&mut from, alloc)?;
    if !from.is_empty() {
        return Err(FieldFault::Range);
    }
    Ok(entry)
}

/// The entry that the bytes spell, all of them, with the caller 0. The fault is the first from the
/// left, bytes left over the last.
pub fn from_bytes(alloc: Global, bytes: &[u8]) -> Result<LogEntry, FieldFault>
    // What is read is spelled so.
    ensures found { IfOk result
        (λ e. (log_entry_code sha256).Fits e × (bytes.now ≡ (log_entry_code sha256).spell e)) }
    // What is spelled so is read, unless memory runs out.
    ensures only { (e : LogEntry) → (log_entry_code sha256).Fits e
        → bytes.now ≡ (log_entry_code sha256).spell e
        → Gives result (Ok e) }
    // Which fault it is: the first from the left.
    ensures exact { Gives result (whole (log_entry_code sha256) bytes.now) }
{
    all_of(alloc, bytes)
}

/// Whether the bytes are an entry's, all of them.
#[tactic(auto, unfolding(crate::specs::Payload::has_reading))]
pub fn has_reading(alloc: Global, bytes: &[u8]) -> Result<bool, NoMemory>
    ensures { IfOk result (λ b. b ≡ has_reading bytes.now) }
{
    match all_of(alloc, bytes) {
        Ok(entry) => {
            // By a call, so that the proof doesn't take each kind of action apart here.
            drop(entry);
            Ok(true)
        }
        Err(FieldFault::NoMemory) => Err(NoMemory),
        Err(_) => Ok(false),
    }
}
