//! Commits as bytes.

ghost use Rattle.std.specs.Prelude.{◌≡◌, IfOk, Ok};
ghost use Rattle.sha2.specs.Sha256.{sha256};
ghost use Rattle.cat_codes.specs.Read.{Gives};
ghost use Rattle.cat_codes.specs.Code.{whole};
ghost use Rattle.cat_model.specs.Formats.{commit_code};
ghost use Rattle.cat_model.specs.State.{commit_hash};

use cat_codes::fault::{FieldFault, NoMemory};
use cat_codes::field;
use cat_model::commit::Commit;
use cat_names::hash::Hash;
use std::alloc::Global;

/// The bytes of a commit: `NC1`, its parents, generation, time and meta, and its changes.
pub fn to_bytes(alloc: Global, commit: &Commit) -> Result<Vec<u8>, NoMemory>
    ensures { IfOk result (λ bytes. bytes.items ≡ (commit_code).spell commit.now) }
{
    field::to_bytes(alloc, commit)
}

/// The commit that the bytes spell, all of them. The fault is the first from the left, bytes left
/// over the last.
pub fn from_bytes(alloc: Global, bytes: &[u8]) -> Result<Commit, FieldFault>
    ensures found { IfOk result (λ c. (commit_code).Fits c × (bytes.now ≡ (commit_code).spell c)) }
    ensures only { (c : Commit) → (commit_code).Fits c
        → bytes.now ≡ (commit_code).spell c
        → Gives result (Ok c) }
    ensures exact { Gives result (whole commit_code bytes.now) }
{
    field::from_bytes(alloc, bytes)
}

/// The SHA-256 hash of a commit's bytes.
pub fn id(alloc: Global, commit: &Commit) -> Result<Hash, NoMemory>
    ensures { IfOk result (λ h. h ≡ commit_hash sha256 commit.now) }
{
    let bytes = to_bytes(alloc, commit)?;
    Ok(Hash::of(&bytes))
}
