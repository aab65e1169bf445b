//! Contents as bytes.

ghost use Rattle.std.specs.Prelude.{◌≡◌, IfOk, Ok};
ghost use Rattle.sha2.specs.Sha256.{sha256};
ghost use Rattle.cat_codes.specs.Read.{Gives};
ghost use Rattle.cat_codes.specs.Code.{whole};
ghost use Rattle.cat_model.specs.Contents.{content_code};
ghost use Rattle.cat_model.specs.State.{content_hash};

use cat_codes::fault::{FieldFault, NoMemory};
use cat_codes::field;
use cat_model::content::Content;
use cat_names::hash::Hash;
use std::alloc::Global;

/// The bytes of a content: the number of its type, its id, and the fields of the type.
pub fn to_bytes(alloc: Global, content: &Content) -> Result<Vec<u8>, NoMemory>
    ensures { IfOk result (λ bytes. bytes.items ≡ (content_code).spell content.now) }
{
    field::to_bytes(alloc, content)
}

/// The content that the bytes spell, all of them. The fault is the first from the left, bytes left
/// over the last.
pub fn from_bytes(alloc: Global, bytes: &[u8]) -> Result<Content, FieldFault>
    ensures found { IfOk result
        (λ c. (content_code).Fits c × (bytes.now ≡ (content_code).spell c)) }
    ensures only { (c : Content) → (content_code).Fits c
        → bytes.now ≡ (content_code).spell c
        → Gives result (Ok c) }
    ensures exact { Gives result (whole content_code bytes.now) }
{
    field::from_bytes(alloc, bytes)
}

/// The SHA-256 hash of a content's bytes.
pub fn hash(alloc: Global, content: &Content) -> Result<Hash, NoMemory>
    ensures { IfOk result (λ h. h ≡ content_hash sha256 content.now) }
{
    let bytes = to_bytes(alloc, content)?;
    Ok(Hash::of(&bytes))
}
