//! What a checkpoint tells of a catalogue.

ghost use Rattle.std.specs.Prelude.{◌≡◌, IfOk, None, Ok, reverse};
ghost use Rattle.sha2.specs.Sha256.{sha256};
ghost use Rattle.cat_codes.specs.Code.{whole};
ghost use Rattle.cat_frames.specs.Bases.{checkpoint_of};
ghost use Rattle.cat_frames.specs.Checkpoints.{checkpoint_code};
ghost use Rattle.cat_state.specs.Basing.{IfWritten, IsCheckpointed, Spells, base_of_state};
ghost use Rattle.cat_state.specs.Kept.{Bases};
ghost use Rattle.cat_tables.specs.Sorted.{sorted};

use crate::catalogue::Catalogue;
use crate::copies::copy_commit;
use crate::failure::Failure;
use crate::keeping::rebase;
use crate::unmade::Unmade;
use cat_codes::fault::NoMemory;
use cat_codes::seq::Seq;
use cat_frames::{Checkpoint, checkpoint_fits, checkpoint_to_bytes};
use cat_graph::graph::Graph;
use cat_keeper::Keeper;
use cat_model::commit::Commit;
use cat_model::content::Content;
use cat_model::copies::copy_content;
use cat_model::limits::Quantity;
use cat_model::reference::Reference;
use cat_model::refusal::Refusal;
use cat_names::hash::Hash;
use cat_tables::references::References;
use cat_tables::table::Table;
use std::alloc::Global;

/// The most bytes of a payload.
const MOST_BYTES: u64 = 4_294_967_295;

/// Copies of references, in the order of their names.
fn listed_references(alloc: Global, references: &References) -> Result<Seq<Reference>, NoMemory>
    ensures { IfOk result (λ list. list ≡ references.now) }
{
    let mut list = Seq::new(alloc);
    let mut rest = references.walk();
    while let Some(reference) = rest.next() {
        list.push(reference.clone()?)?;
    }
    Ok(list)
}

/// Copies of commits, the oldest first.
fn listed_commits(alloc: Global, commits: &Graph) -> Result<Seq<(Hash, Commit)>, NoMemory>
    ensures { IfOk result (λ list. list ≡ reverse commits.now) }
{
    let mut list = Seq::new(alloc);
    let oldest_first = commits.oldest_first(alloc)?;
    for (hash, commit) in oldest_first.as_slice() {
        list.push((**hash, copy_commit(commit)?))?;
    }
    Ok(list)
}

/// Copies of contents, in the order of their hashes.
fn listed_contents(
    alloc: Global,
    contents: &Table<Content>,
) -> Result<Seq<(Hash, Content)>, NoMemory>
    ensures { IfOk result (λ list. list ≡ sorted contents.now) }
{
    let mut list = Seq::new(alloc);
    let mut rest = contents.walk();
    while let Some((hash, content)) = rest.next() {
        list.push((*hash, copy_content(content)?))?;
    }
    Ok(list)
}

impl Catalogue {
    /// The checkpoint of the catalogue, where its log has this greatest draft number, and drafts
    /// with these below it are open.
    pub fn checkpoint(
        &self,
        alloc: Global,
        draft: u64,
        drafts: Seq<u64>,
    ) -> Result<Checkpoint, NoMemory>
        ensures { IfOk result (λ c. c ≡ checkpoint_of self.now draft drafts) }
    {
        Ok(Checkpoint {
            place: self.place,
            draft,
            drafts,
            references: listed_references(alloc, self.references())?,
            commits: listed_commits(alloc, self.commits())?,
            contents: listed_contents(alloc, self.contents())?,
        })
    }

    /// Has the keeper make a checkpoint of the catalogue its base, where its log has this greatest
    /// draft number, and drafts with these below it are open. The catalogue stays as it is. What was
    /// given to the keeper reads as the checkpoint, whether it was kept or not.
    #[tactic(auto, using(crate::proofs::Spelled::place_spelled, crate::proofs::Spelled::read_kept, crate::proofs::Spelled::spells_kept, crate::proofs::Spelled::state_spelled))]
    pub fn keep_checkpoint<K: Keeper>(
        &self,
        alloc: Global,
        keeper: &mut K,
        draft: u64,
        drafts: Seq<u64>,
    ) -> Result<(), Unmade>
        requires spelled { IsCheckpointed self.now draft drafts }
        requires format { K.form keeper.old ≡ 2 }
        requires up { K.down keeper.old ≡ None }
        ensures spells { Spells (base_of_state self.now draft drafts) result }
        ensures reads { IfWritten result
            (whole (checkpoint_code sha256) (base_of_state self.now draft drafts)
            ≡ Ok (checkpoint_of self.now draft drafts)) }
        ensures bases { Bases K.Keeper keeper.old keeper.new self.now.place
            (base_of_state self.now draft drafts) result }
    {
        self.references.known();
        let checkpoint = self.checkpoint(alloc, draft, drafts)?;
        if !checkpoint_fits(alloc, &checkpoint)? {
            return Err(Unmade::Failed(Failure::Refused(Refusal::Limit {
                which: Quantity::Checkpoint,
                number: MOST_BYTES,
            })));
        }
        let bytes = checkpoint_to_bytes(alloc, &checkpoint)?;
        rebase(keeper, self.place(), &bytes)
    }
}
