//! Commits of plans, each upon the one before.

ghost use Rattle.std.specs.Prelude.{◌≡◌, ◌≤◌, ◌<◌, ◌+◌, IfOk, IsTrue, length, map};
ghost use Rattle.std.specs.List.{list_all};
ghost use Rattle.sha2.specs.Sha256.{sha256};
ghost use Rattle.cat_model.specs.Chain.{entries};
ghost use Rattle.cat_model.specs.Merges.{generation_after, planned_commit, with_planned};
ghost use Rattle.cat_model.specs.Records.{with_commit};
ghost use Rattle.cat_model.specs.State.{commit_hash, is_known};
ghost use Rattle.cat_graph.specs.Linked.{is_merge_known};
ghost use Rattle.cat_merge.specs.Planned.{as_planned};
ghost use Rattle.cat_state.specs.Adding.{HasCommit, IsRecordOf};
ghost use Rattle.cat_state.specs.Changing.{AreNewTo, with_additions};
ghost use Rattle.cat_state.specs.Giving.{GivesAs};
ghost use Rattle.cat_state.specs.Keeping.{IsHeldAt};
ghost use Rattle.cat_state.specs.Planning.{AddsFew, AreMadeUpon, IsMadeUpon};

use crate::additions::Additions;
use crate::catalogue::Catalogue;
use crate::failure::Failure;
use crate::records::{NewCommit, commit_record};
use cat_codes::fault::NoMemory;
use cat_merge::plan::{Plan, Planned};
use cat_model::commit::Commit;
use cat_model::moment::Moment;
use cat_names::hash::Hash;
use std::alloc::Global;

impl Catalogue {
    /// One more than the greatest generation of a commit's parents.
    fn generation_after(&self, more: &Additions, parent: &Hash, merge_parent: &Option<Hash>) -> u64
        requires new { AreNewTo self.now more.now }
        requires few { length (with_additions self.now more.now).commits ≤ 4294967295 }
        ensures { result
            ≡ generation_after (with_additions self.now more.now).commits parent.now
            merge_parent.now }
    {
        let below = self.generation_with(more, parent);
        match merge_parent {
            None => below + 1,
            Some(other) => below.max(self.generation_with(more, other)) + 1,
        }
    }

    /// The commit of a plan upon a head, the map at it, and its bytes.
    fn made_upon(
        &self,
        alloc: Global,
        more: &Additions,
        moment: Moment,
        head: &Hash,
        planned: Planned,
    ) -> Result<NewCommit, NoMemory>
        requires new { AreNewTo self.now more.now }
        requires few { length (with_additions self.now more.now).commits ≤ 4294967295 }
        ensures commit { IfOk result
            (λ made. made.commit
            ≡ planned_commit (with_additions self.now more.now).commits head.now moment
            (as_planned planned)) }
        ensures map { IfOk result (λ made. made.map ≡ planned.plan.map) }
        ensures written { IfOk result (λ made. IsRecordOf made.commit made.written) }
    {
        let Planned {
            merge_parent,
            meta,
            plan,
        } = planned;
        let Plan { ops, map, .. } = plan;
        let generation = self.generation_after(more, head, &merge_parent);
        let commit = Commit {
            parent: *head,
            merge_parent,
            generation,
            time: moment,
            meta,
            ops,
        };
        let written = commit_record(alloc, &commit)?;
        Ok(NewCommit {
            commit,
            map,
            written,
        })
    }

    /// Adds the commit of a plan upon a head, and the map at it, unless it is there, and gives its
    /// hash.
    fn add_upon(
        &self,
        alloc: Global,
        more: &mut Additions,
        moment: Moment,
        head: &Hash,
        planned: Planned,
    ) -> Result<Hash, Failure>
        requires new { AreNewTo self.now more.old }
        requires known { IsTrue (is_known sha256 (with_additions self.now more.old) head.now) }
        requires merged { IsTrue
            (is_merge_known (with_additions self.now more.old).commits planned.merge_parent) }
        requires made { let state = with_additions self.now more.old in
            IsMadeUpon state.present (entries state.commits head.now) planned.plan }
        requires few { length (with_additions self.now more.old).commits < 4294967295 }
        ensures step { let state = with_additions self.now more.old in
            GivesAs (λ _. with_additions self.now more.new) result
            (with_commit sha256 state
            (planned_commit state.commits head.now moment (as_planned planned))) }
        ensures hash { IfOk result
            (λ hash. hash
            ≡ commit_hash sha256
            (planned_commit (with_additions self.now more.old).commits head.now moment
            (as_planned planned))) }
        ensures added { IfOk result
            (λ hash. HasCommit self.now more.old more.new hash planned.plan.map) }
    {
        let made = self.made_upon(alloc, more, moment, head, planned)?;
        let hash = made.written.hash;
        self.add_commit(alloc, more, made)?;
        Ok(hash)
    }

    /// What the commits of plans add to it, each upon the one before and the first upon a head,
    /// with the map at each, less what is there already; with the last one's hash.
    pub fn planned_additions(
        &self,
        alloc: Global,
        moment: Moment,
        head: &Hash,
        planned: Vec<Planned>,
    ) -> Result<(Hash, Additions), Failure>
        requires known { IsTrue (is_known sha256 self.now head.now) }
        requires merged { IsTrue
            (list_all (λ p. is_merge_known self.now.commits p.merge_parent) planned.items) }
        requires held { IsHeldAt self.now head.now }
        requires made { AreMadeUpon self.now.present (entries self.now.commits head.now)
            planned.items }
        requires room { length self.now.commits + length planned.items ≤ 4294967295 }
        ensures step { GivesAs (λ a. (a.0, with_additions self.now a.1)) result
            (with_planned sha256 moment self.now head.now (map as_planned planned.items)) }
        ensures new { IfOk result (λ a. AreNewTo self.now a.1) }
        ensures known { IfOk result
            (λ a. IsTrue (is_known sha256 (with_additions self.now a.1) a.0)) }
        ensures held { IfOk result (λ a. IsHeldAt (with_additions self.now a.1) a.0) }
        ensures adds { IfOk result (λ a. AddsFew self.now planned.items a.1) }
    {
        let mut more = self.no_additions(alloc);
        let mut at = *head;
        for one in planned {
            at = self.add_upon(alloc, &mut more, moment, &at, one)?;
        }
        Ok((at, more))
    }
}
