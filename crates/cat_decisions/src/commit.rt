//! Commits that opened a draft, settled by what was judged at their branch's head.

ghost use Rattle.std.specs.Prelude.{◌≡◌, Ok, IfOk, IsTrue, flat_map};
ghost use Rattle.sha2.specs.Sha256.{sha256};
ghost use Rattle.cat_names.specs.declared.hash.Hash.{Hash as HashValue};
ghost use Rattle.cat_model.specs.declared.command.Command.TheVariants as commands;
ghost use Rattle.cat_model.specs.Commits.{added_id, step_commit};
ghost use Rattle.cat_model.specs.Distinct.{are_distinct};
ghost use Rattle.cat_model.specs.Step.{opening};
ghost use Rattle.cat_model.specs.WellMade.{have_contents};
ghost use Rattle.cat_decisions.specs.Decisions.{Decides};
ghost use Rattle.cat_decisions.specs.Builds.{IsGiven, IsJudgedAt};
ghost use Rattle.cat_decisions.specs.Putting.{making_of};

use crate::decision::{Decision, Making, at_head};
use crate::given::Given;
use crate::judging::tested_map;
use crate::opening::open_commit;
use crate::ops::added_ids;
use crate::preparing::additions;
use cat_codes::fault::NoMemory;
use cat_model::command::{Command, CommitRequest};
use cat_model::moment::Moment;
use cat_model::op::Op;
use cat_model::reference::Reference;
use cat_model::reply::{Committed, Reply};
use cat_names::hash::Hash;
use cat_rules::judging::Judged;
use cat_state::additions::Additions;
use cat_state::catalogue::Catalogue;
use cat_state::change::{Change, ReferenceChange};
use cat_state::copies::copy_meta;
use cat_state::failure::Failure;
use std::alloc::Global;

/// The request as it is logged.
fn logged_request(request: &CommitRequest, given: Given) -> Result<CommitRequest, NoMemory>
    ensures { IfOk result
        (λ r. r ≡ record request.now { ops = given.ops; contents = given.contents }) }
{
    let branch = request.branch.clone()?;
    let meta = copy_meta(&request.meta)?;
    Ok(CommitRequest {
        branch,
        expected: request.expected,
        meta,
        ops: given.ops,
        contents: given.contents,
    })
}

/// The reply of a commit of operations on a branch.
fn reply(alloc: Global, branch: &Reference, hash: Hash, ops: &[Op]) -> Result<Committed, NoMemory>
    ensures { IfOk result
        (λ c. c
        ≡ record {
          added = flat_map added_id ops.now;
          target = record branch.now { head = hash };
        }) }
{
    let target = at_head(branch, hash)?;
    let added = added_ids(alloc, ops)?;
    Ok(Committed { added, target })
}

/// The change of a commit on a branch, given its hash and what it adds.
fn making(
    alloc: Global,
    request: &CommitRequest,
    branch: &Reference,
    hash: Hash,
    given: Given,
    additions: Additions,
) -> Result<Making, NoMemory>
    ensures { IfOk result (λ m. m ≡ making_of request.now branch.now hash given additions) }
{
    let reply = reply(alloc, branch, hash, given.ops.as_slice())?;
    let moved = at_head(branch, hash)?;
    let logged = logged_request(request, given)?;
    Ok(Making {
        change: Change {
            additions,
            reference: ReferenceChange::Moved(moved),
        },
        command: Command::Commit(logged),
        head: Some(hash),
        reply: Reply::Committed(reply),
    })
}

/// What the request comes to on its branch in the draft of that number, its operations judged
/// there.
pub(crate) fn settle_commit(
    alloc: Global,
    catalogue: &Catalogue,
    number: u64,
    moment: Moment,
    request: &CommitRequest,
    given: Given,
    judged: Judged,
) -> Result<Decision, Failure>
    requires distinct { IsTrue (are_distinct request.now.ops) }
    requires contents { IsTrue (have_contents sha256 request.now.ops request.now.contents) }
    requires given { IsGiven number request.now given }
    requires opened { opening sha256 catalogue.now (commands.Commit request.now) ≡ Ok tt }
    requires judged { (head : HashValue)
        × IsJudgedAt catalogue.now request.now given.ops head judged }
    ensures decides { Decides number catalogue.now (commands.Commit request.now)
        (step_commit sha256 catalogue.now request.now number moment) result }
{
    let Ok((branch, _)) = open_commit(catalogue, request) else {
        unreachable!()
    };
    let map = tested_map(catalogue, branch, given.ops.as_slice(), judged)?;
    let head = &branch.head;
    let (hash, additions) = additions(alloc, catalogue, moment, request, head, &given, map)?;
    let making = making(alloc, request, branch, hash, given, additions)?;
    Ok(Decision::Made(making))
}
