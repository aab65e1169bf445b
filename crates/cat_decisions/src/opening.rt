//! The branches that calls are on, and what is tested before their drafts are opened. What is
//! visible at a branch's head is held.

ghost use Rattle.std.specs.Prelude.{IfOk, IsTrue};
ghost use Rattle.sha2.specs.Sha256.{sha256};
ghost use Rattle.cat_model.specs.Commits.{commit_opening};
ghost use Rattle.cat_model.specs.Merges.{merge_opening};
ghost use Rattle.cat_model.specs.State.{is_known};
ghost use Rattle.cat_model.specs.Transplants.{transplant_opening};
ghost use Rattle.cat_state.specs.Giving.{SaysAs};
ghost use Rattle.cat_state.specs.Keeping.{IsHeldAt};
ghost use Rattle.cat_decisions.specs.Drafts.{AreKnown};

use cat_model::command::{CommitRequest, Merge, Transplant};
use cat_model::reference::{Kind, Reference};
use cat_model::refusal::{Reason, Refusal};
use cat_names::hash::Hash;
use cat_state::catalogue::Catalogue;

/// The branch of a request, and the commit that it expects there.
#[tactic(auto, unfolding(cat_model::specs::Commits::commit_opening))]
pub fn open_commit<'a>(
    catalogue: &'a Catalogue,
    request: &CommitRequest,
) -> Result<(&'a Reference, Hash), Refusal>
    ensures opened { SaysAs (λ o. (o.0.now, o.1)) result
        (commit_opening sha256 catalogue.now request.now) }
    ensures known { IfOk result (λ o. AreKnown catalogue.now o.0.now.head o.1) }
    ensures held { IfOk result (λ o. IsHeldAt catalogue.now o.0.now.head) }
{
    let branch = catalogue.named(&request.branch)?;
    if branch.kind != Kind::Branch {
        return Err(Refusal::BadRequest(Reason::NotABranch));
    }
    let expected = catalogue.pointed(Some(branch), &request.expected)?;
    Ok((branch, expected))
}

/// The branch of a merge, and the commit that is merged into it.
#[tactic(auto, unfolding(cat_model::specs::Merges::merge_opening))]
pub fn open_merge<'a>(
    catalogue: &'a Catalogue,
    merge: &Merge,
) -> Result<(&'a Reference, Hash), Refusal>
    ensures opened { SaysAs (λ o. (o.0.now, o.1)) result
        (merge_opening sha256 catalogue.now merge.now) }
    ensures known { IfOk result (λ o. AreKnown catalogue.now o.0.now.head o.1) }
    ensures held { IfOk result (λ o. IsHeldAt catalogue.now o.0.now.head) }
{
    let branch = catalogue.named(&merge.branch)?;
    let from = catalogue.named(&merge.from)?;
    if branch.kind != Kind::Branch {
        return Err(Refusal::BadRequest(Reason::NotABranch));
    }
    catalogue.pointed(Some(branch), &merge.hash)?;
    let source = catalogue.pointed(Some(from), &Some(merge.from_hash))?;
    Ok((branch, source))
}

/// The branch of a transplant, where its commits are on the chain of their reference, and in a row.
#[tactic(auto, unfolding(cat_model::specs::Transplants::transplant_opening))]
pub fn open_transplant<'a>(
    catalogue: &'a Catalogue,
    transplant: &Transplant,
) -> Result<&'a Reference, Refusal>
    ensures opened { SaysAs (λ r. r.now) result
        (transplant_opening sha256 catalogue.now transplant.now) }
    ensures known { IfOk result (λ r. IsTrue (is_known sha256 catalogue.now r.now.head)) }
    ensures held { IfOk result (λ r. IsHeldAt catalogue.now r.now.head) }
{
    let branch = catalogue.named(&transplant.branch)?;
    let from = catalogue.named(&transplant.from)?;
    if branch.kind != Kind::Branch {
        return Err(Refusal::BadRequest(Reason::NotABranch));
    }
    catalogue.pointed(Some(branch), &transplant.hash)?;
    let hashes = transplant.hashes.as_slice();
    if !catalogue.are_on_chain(&from.head, hashes) {
        return Err(Refusal::RefNotFound);
    }
    if !catalogue.are_consecutive(hashes) {
        return Err(Refusal::BadRequest(Reason::NotConsecutive));
    }
    Ok(branch)
}
