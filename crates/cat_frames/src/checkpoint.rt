//! Checkpoints as bytes.

ghost use Rattle.std.specs.Prelude.{◌≡◌, IfOk, IsTrue, Ok};
ghost use Rattle.sha2.specs.Sha256.{sha256};
ghost use Rattle.cat_codes.specs.Read.{Gives};
ghost use Rattle.cat_codes.specs.Code.{whole};
ghost use Rattle.cat_frames.specs.Checkpoints as checkpoints;
ghost use Rattle.cat_frames.specs.Checkpoints.{checkpoint_code, is_spelled};
ghost use Rattle.cat_frames.specs.CheckpointLaws.{is_whole_checkpoint};

use crate::checkpoint_fields::{read_checkpoint, write_checkpoint};
use cat_codes::bytes::Bytes;
use cat_codes::fault::{FieldFault, NoMemory};
use cat_codes::reader::Reader;
use cat_codes::seq::Seq;
use cat_codes::writer::Writer;
use cat_model::commit::Commit;
use cat_model::content::Content;
use cat_model::reference::Reference;
use cat_names::hash::Hash;
use std::alloc::Global;

/// The catalogue after so many entries, and what is still to be known of these.
#[derive(Drop)]
pub struct Checkpoint {
    /// How many entries led to it.
    pub place: u32,
    /// The greatest draft number of these.
    pub draft: u64,
    /// The numbers below it of the drafts that are open, ascending.
    pub drafts: Seq<u64>,
    /// Names ascending.
    pub references: Seq<Reference>,
    /// The oldest first, each under its hash.
    pub commits: Seq<(Hash, Commit)>,
    /// Each under its hash, hashes ascending.
    pub contents: Seq<(Hash, Content)>,
}

/// The bytes of a checkpoint: the byte 8, its place, the draft number, the drafts, the references,
/// and each commit and content within its length. More than 4,294,967,295 bytes are answered as
/// want of memory.
#[tactic(auto, using(crate::proofs::Rewritten::checkpoint_reads, crate::proofs::Rewritten::checkpoint_again))]
pub fn checkpoint_to_bytes(alloc: Global, checkpoint: &Checkpoint) -> Result<Bytes, NoMemory>
    requires { IsTrue (is_spelled sha256 checkpoint.now) }
    ensures spelled { IfOk result
        (λ bytes. bytes ≡ (checkpoint_code sha256).spell checkpoint.now) }
    ensures reads { IfOk result (λ bytes. IsTrue (is_whole_checkpoint bytes)) }
    ensures again { IfOk result
        (λ bytes. whole (checkpoint_code sha256) bytes ≡ Ok checkpoint.now) }
{
    let mut out = Writer::new(alloc);
    write_checkpoint(alloc, &mut out, checkpoint)?;
    Ok(Bytes::from_vec(out.finish())?)
}

#[tactic(auto, unfolding(cat_codes::specs::Code::whole))]
fn all_of(alloc: Global, bytes: &[u8]) -> Result<Checkpoint, FieldFault>
    ensures { Gives result (whole (checkpoint_code sha256) bytes.now) }
{
    let mut from = Reader::new(bytes);
    let checkpoint = read_checkpoint(&mut from, alloc)?;
    if !from.is_empty() {
        return Err(FieldFault::Range);
    }
    Ok(checkpoint)
}

/// The checkpoint that the bytes spell, all of them. The fault is the first from the left, bytes
/// left over the last.
pub fn checkpoint_from_bytes(alloc: Global, bytes: &[u8]) -> Result<Checkpoint, FieldFault>
    // What is read is spelled so.
    ensures found { IfOk result
        (λ c. (checkpoint_code sha256).Fits c
        × (bytes.now ≡ (checkpoint_code sha256).spell c)) }
    // What is spelled so is read, unless memory runs out.
    ensures only { (c : Checkpoint) → (checkpoint_code sha256).Fits c
        → bytes.now ≡ (checkpoint_code sha256).spell c
        → Gives result (Ok c) }
    // Which fault it is: the first from the left.
    ensures exact { Gives result (whole (checkpoint_code sha256) bytes.now) }
{
    all_of(alloc, bytes)
}

/// Whether the bytes are of a checkpoint's kind, by the first of them.
pub fn is_checkpoint(bytes: &[u8]) -> bool
    ensures { result ≡ checkpoints.is_checkpoint bytes.now }
{
    match bytes {
        [] => false,
        [kind, ..] => *kind == 8,
    }
}

/// Whether the bytes are a checkpoint's, all of them.
#[tactic(auto, unfolding(crate::specs::CheckpointLaws::is_whole_checkpoint))]
pub fn is_whole_checkpoint(alloc: Global, bytes: &[u8]) -> Result<bool, NoMemory>
    ensures { IfOk result (λ b. b ≡ is_whole_checkpoint bytes.now) }
{
    match all_of(alloc, bytes) {
        Ok(checkpoint) => {
            drop(checkpoint);
            Ok(true)
        }
        Err(FieldFault::NoMemory) => Err(NoMemory),
        Err(_) => Ok(false),
    }
}
