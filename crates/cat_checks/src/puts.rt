//! Whether a PUT is of its content.

ghost use Rattle.std.specs.Prelude.{◌≡◌, ◌&&◌, IfOk};
ghost use Rattle.sha2.specs.Sha256.{sha256};
ghost use Rattle.cat_model.specs.State.{entry_for};
ghost use Rattle.cat_model.specs.WellMade.{is_of, may_stand_at};

use cat_codes::fault::NoMemory;
use cat_codes::field::to_bytes;
use cat_model::content::Content;
use cat_model::entry::Entry;
use cat_names::hash::Hash;
use cat_names::key::ContentKey;
use std::alloc::Global;

/// The entry of a content.
fn entry_for(alloc: Global, content: &Content) -> Result<Entry, NoMemory>
    ensures { IfOk result (λ e. e ≡ entry_for sha256 content.now) }
{
    let bytes = to_bytes(alloc, content)?;
    Ok(Entry {
        kind: content.body.kind(),
        id: content.id,
        hash: Hash::of(bytes.as_slice()),
    })
}

/// Whether the entry is of the content: of its type where the server gives the id, and else all of
/// it.
fn is_of(alloc: Global, entry: &Entry, fresh: bool, content: &Content) -> Result<bool, NoMemory>
    ensures { IfOk result (λ b. b ≡ is_of sha256 entry.now fresh content.now) }
{
    if fresh {
        return Ok(entry.kind == content.body.kind());
    }
    Ok(*entry == entry_for(alloc, content)?)
}

/// Whether the content may stand at the key, and the entry is of it.
pub(crate) fn is_put(
    alloc: Global,
    key: &ContentKey,
    entry: &Entry,
    fresh: bool,
    content: &Content,
) -> Result<bool, NoMemory>
    ensures { IfOk result
        (λ b. b
        ≡ may_stand_at key.now content.now.body && is_of sha256 entry.now fresh content.now) }
{
    Ok(content.body.may_stand_at(key) && is_of(alloc, entry, fresh, content)?)
}
