//! What the commit of a request adds to a catalogue.

ghost use Rattle.std.specs.Prelude.{◌≡◌, ◌<◌, length, IfOk, IsTrue};
ghost use Rattle.std.specs.List.{list_all};
ghost use Rattle.sha2.specs.Sha256.{sha256};
ghost use Rattle.cat_model.specs.Commits.{request_commit};
ghost use Rattle.cat_model.specs.Distinct.{are_distinct};
ghost use Rattle.cat_model.specs.State.{commit_hash};
ghost use Rattle.cat_state.specs.Adding.{AreHashesOf, IsRecordOf, with_both};
ghost use Rattle.cat_state.specs.Changing.{AreNewTo, MayBeHead, with_additions};
ghost use Rattle.cat_state.specs.Giving.{GivesAs};
ghost use Rattle.cat_state.specs.Keeping.{MayBeAdded, is_held};
ghost use Rattle.cat_decisions.specs.Putting.{IsMapAfter};

use crate::given::Given;
use cat_codes::fault::NoMemory;
use cat_keymap::key_map::KeyMap;
use cat_keymap::order::changes_of;
use cat_model::command::CommitRequest;
use cat_model::commit::Commit;
use cat_model::moment::Moment;
use cat_model::op::Op;
use cat_names::hash::Hash;
use cat_state::additions::Additions;
use cat_state::catalogue::Catalogue;
use cat_state::copies::copy_meta;
use cat_state::failure::Failure;
use cat_state::records::{NewCommit, commit_record};
use std::alloc::Global;

/// The commit with the map at it and its record.
fn keep(alloc: Global, commit: Commit, map: KeyMap) -> Result<NewCommit, NoMemory>
    ensures commit { IfOk result (λ kept. kept.commit ≡ commit) }
    ensures map { IfOk result (λ kept. kept.map ≡ map) }
    ensures written { IfOk result (λ kept. IsRecordOf commit kept.written) }
{
    let written = commit_record(alloc, &commit)?;
    Ok(NewCommit {
        commit,
        map,
        written,
    })
}

/// The commit of the operations at a head.
#[tactic(auto, unfolding(cat_model::specs::Commits::request_commit))]
fn request_commit(
    alloc: Global,
    catalogue: &Catalogue,
    moment: Moment,
    request: &CommitRequest,
    head: &Hash,
    ops: &[Op],
) -> Result<Commit, NoMemory>
    requires room { length catalogue.now.commits < 4294967295 }
    requires distinct { IsTrue (are_distinct ops.now) }
    ensures { IfOk result
        (λ c. c ≡ request_commit catalogue.now head.now moment request.now ops.now) }
{
    Ok(Commit {
        parent: *head,
        merge_parent: None,
        generation: catalogue.generation(head) + 1,
        time: moment,
        meta: copy_meta(&request.meta)?,
        ops: changes_of(alloc, ops)?,
    })
}

/// The same, with the map after the operations, and its record.
fn kept_commit(
    alloc: Global,
    catalogue: &Catalogue,
    moment: Moment,
    request: &CommitRequest,
    head: &Hash,
    ops: &[Op],
    map: KeyMap,
) -> Result<NewCommit, NoMemory>
    requires room { length catalogue.now.commits < 4294967295 }
    requires after { IsMapAfter catalogue.now head.now ops.now map }
    ensures commit { IfOk result
        (λ kept. kept.commit ≡ request_commit catalogue.now head.now moment request.now ops.now) }
    ensures map { IfOk result (λ kept. kept.map ≡ map) }
    ensures next { IfOk result (λ kept. MayBeAdded catalogue.now.commits kept.commit kept.map) }
    ensures written { IfOk result (λ kept. IsRecordOf kept.commit kept.written) }
{
    let commit = request_commit(alloc, catalogue, moment, request, head, ops)?;
    let kept = keep(alloc, commit, map)?;
    Ok(kept)
}

/// What the commit of a request at a head adds, less what is there already, with the commit's hash,
/// given the map after its operations.
pub(crate) fn additions(
    alloc: Global,
    catalogue: &Catalogue,
    moment: Moment,
    request: &CommitRequest,
    head: &Hash,
    given: &Given,
    map: KeyMap,
) -> Result<(Hash, Additions), Failure>
    requires room { length catalogue.now.commits < 4294967295 }
    requires after { IsMapAfter catalogue.now head.now given.now.ops map }
    requires hashes { AreHashesOf given.now.hashes.items given.now.contents }
    requires held { IsTrue
        (list_all (λ x. is_held catalogue.now.present given.now.hashes.items x.1.hash) map) }
    ensures step { GivesAs (λ a. with_additions catalogue.now a.1) result
        (with_both catalogue.now given.now.contents
        (request_commit catalogue.now head.now moment request.now given.now.ops)) }
    ensures hash { IfOk result
        (λ a. a.0
        ≡ commit_hash sha256
        (request_commit catalogue.now head.now moment request.now given.now.ops)) }
    ensures new { IfOk result (λ a. AreNewTo catalogue.now a.1) }
    ensures head { IfOk result (λ a. MayBeHead (with_additions catalogue.now a.1) a.0) }
{
    let ops = given.ops.as_slice();
    let kept = kept_commit(alloc, catalogue, moment, request, head, ops, map)?;
    let hash = kept.written.hash;
    let contents = given.contents.as_slice();
    let additions = catalogue.additions_of(alloc, contents, given.hashes.as_slice(), kept)?;
    Ok((hash, additions))
}
