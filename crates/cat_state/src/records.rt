//! The bytes of commits and contents, and their hashes.

ghost use Rattle.std.specs.Prelude.{◌≡◌, Some, false, IfOk, is_none, if◌then◌else◌};
ghost use Rattle.std.specs.Option.{option_map};
ghost use Rattle.sha2.specs.Sha256.{sha256};
ghost use Rattle.cat_model.specs.State.{State, content_hash};
ghost use Rattle.cat_model.specs.Records.{added};
ghost use Rattle.cat_state.specs.Adding.{IsRecordOf};
ghost use Rattle.cat_state.specs.Giving.{GivesAs};

use crate::failure::Failure;
use cat_codes::bytes::Bytes;
use cat_codes::fault::NoMemory;
use cat_codes::field::to_bytes;
use cat_keymap::key_map::KeyMap;
use cat_model::commit::Commit;
use cat_model::content::Content;
use cat_model::refusal::Refusal;
use cat_names::hash::Hash;
use std::alloc::Global;

/// The bytes of a commit or a content, and their hash.
#[derive(Drop)]
pub struct Record {
    pub hash: Hash,
    pub bytes: Vec<u8>,
}

/// A commit that is to be added, the map at it, and its bytes and their hash.
#[derive(Drop)]
pub struct NewCommit {
    pub commit: Commit,
    pub map: KeyMap,
    pub written: Record,
}

/// The hash of a content's bytes.
pub fn content_hash(alloc: Global, content: &Content) -> Result<Hash, NoMemory>
    ensures { IfOk result (λ h. h ≡ content_hash sha256 content.now) }
{
    let bytes = to_bytes(alloc, content)?;
    Ok(Hash::of(bytes.as_slice()))
}

/// A commit's bytes and their hash.
pub fn commit_record(alloc: Global, commit: &Commit) -> Result<Record, NoMemory>
    ensures { IfOk result (λ r. IsRecordOf commit.now r) }
{
    let bytes = to_bytes(alloc, commit)?;
    Ok(Record {
        hash: Hash::of(bytes.as_slice()),
        bytes,
    })
}

/// Whether nothing is kept under the record's hash. Other bytes that are kept there refuse it.
pub(crate) fn is_new(
    alloc: Global,
    kept: &Option<Vec<u8>>,
    written: &Record,
) -> Result<bool, Failure>
    ensures nothing { IfOk result (λ b. b ≡ is_none kept.now) }
    ensures same { IfOk result
        (λ b. b ≡ false → option_map (λ v. v.items) kept.now ≡ Some written.now.bytes.items) }
    ensures added { (state more : State)
        → GivesAs (λ b. if b then more else state) result
        (added state more written.now.hash (option_map (λ v. v.items) kept.now)
        written.now.bytes.items) }
{
    let Some(kept) = kept else {
        return Ok(true);
    };
    if kept.as_slice() == written.bytes.as_slice() {
        return Ok(false);
    }
    Err(Failure::Refused(Refusal::Collision {
        hash: written.hash,
        first: Bytes::from_slice(alloc, kept.as_slice())?,
        second: Bytes::from_slice(alloc, written.bytes.as_slice())?,
    }))
}
