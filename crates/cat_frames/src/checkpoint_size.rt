//! How many bytes a checkpoint has, told without writing them.

ghost use Rattle.std.specs.Prelude.{◌≡◌, ◌+◌, IfOk, length, nat_le};
ghost use Rattle.sha2.specs.Sha256.{sha256};
ghost use Rattle.cat_frames.specs.Bases.{checkpoint_spelling};
ghost use Rattle.cat_frames.specs.Checkpoints.{hashed, named_code};
ghost use Rattle.cat_frames.specs.Sizes.{capped, size_of};
ghost use Rattle.cat_model.specs.Contents.{content_code};
ghost use Rattle.cat_model.specs.Formats.{commit_code};

use crate::checkpoint::Checkpoint;
use cat_codes::fault::NoMemory;
use cat_codes::field::to_bytes;
use cat_model::commit::Commit;
use cat_model::content::Content;
use cat_model::reference::Reference;
use cat_names::hash::Hash;
use std::alloc::Global;

/// The most bytes of a payload.
const MOST_BYTES: u64 = 4_294_967_295;

/// The bytes of a checkpoint beside its lists' items: the kind, the place, the draft number and
/// four counts.
const BESIDE_ITEMS: u64 = 1 + 4 + 8 + 4 * 4;

/// The bytes of a reference's name's length and of its kind.
const BESIDE_NAME: u64 = 4 + 1;

/// A sum of sizes, which stands still at its type's end.
fn sum(a: u64, b: u64) -> u64
    ensures { result ≡ capped (a + b) }
{
    a.saturating_add(b)
}

fn reference_size(reference: &Reference) -> u64
    ensures { result ≡ capped (length ((named_code).spell reference.now)) }
{
    let head = reference.head.bytes.as_slice().len() as u64;
    let name = reference.name.as_str().len() as u64;
    sum(sum(BESIDE_NAME, name), head)
}

fn commit_size(alloc: Global, commit: &(Hash, Commit)) -> Result<u64, NoMemory>
    ensures { IfOk result
        (λ n. n ≡ capped (length ((hashed sha256 commit_code).spell commit.now))) }
{
    let bytes = to_bytes(alloc, &commit.1)?;
    Ok(sum(4, bytes.len() as u64))
}

fn content_size(alloc: Global, content: &(Hash, Content)) -> Result<u64, NoMemory>
    ensures { IfOk result
        (λ n. n ≡ capped (length ((hashed sha256 content_code).spell content.now))) }
{
    let bytes = to_bytes(alloc, &content.1)?;
    Ok(sum(4, bytes.len() as u64))
}

fn references_size(references: &[Reference]) -> u64
    ensures { result ≡ size_of (named_code).spell references.now }
{
    let mut size = 0;
    for reference in references {
        size = sum(size, reference_size(reference));
    }
    size
}

fn commits_size(alloc: Global, commits: &[(Hash, Commit)]) -> Result<u64, NoMemory>
    ensures { IfOk result
        (λ n. n ≡ size_of (hashed sha256 commit_code).spell commits.now) }
{
    let mut size = 0;
    for commit in commits {
        size = sum(size, commit_size(alloc, commit)?);
    }
    Ok(size)
}

fn contents_size(alloc: Global, contents: &[(Hash, Content)]) -> Result<u64, NoMemory>
    ensures { IfOk result
        (λ n. n ≡ size_of (hashed sha256 content_code).spell contents.now) }
{
    let mut size = 0;
    for content in contents {
        size = sum(size, content_size(alloc, content)?);
    }
    Ok(size)
}

/// Whether a checkpoint has no more bytes than a payload may have.
#[tactic(auto, unfolding(crate::specs::Checkpoints::checkpoint_code, crate::specs::Checkpoints::open_code, crate::specs::Checkpoints::numbers_code, crate::specs::Checkpoints::references_code, crate::specs::Checkpoints::commits_code, crate::specs::Checkpoints::contents_code, cat_codes::specs::Code::list, cat_codes::specs::Code::ascending_keys))]
pub fn checkpoint_fits(alloc: Global, checkpoint: &Checkpoint) -> Result<bool, NoMemory>
    ensures { IfOk result
        (λ b. b ≡ nat_le (length (checkpoint_spelling checkpoint.now)) 4294967295) }
{
    checkpoint.drafts.known();
    let drafts = 8 * checkpoint.drafts.len() as u64;
    let references = references_size(checkpoint.references.as_slice());
    let commits = commits_size(alloc, checkpoint.commits.as_slice())?;
    let contents = contents_size(alloc, checkpoint.contents.as_slice())?;
    let items = sum(commits, contents);
    let size = sum(sum(sum(BESIDE_ITEMS, drafts), references), items);
    Ok(size <= MOST_BYTES)
}
