//! What is marked along chains of commits. What was walked isn't walked again: of a head whose
//! parent was walked from, only the changes are looked at.

ghost use Rattle.std.specs.Prelude.{◌≡◌, Some, OnErr, OnOk};
ghost use Rattle.cat_model.specs.Chain.{commit_of, entries};
ghost use Rattle.cat_model.specs.Cutoffs.{live_from};
ghost use Rattle.cat_mark.specs.Marks.{AddsAll, AddsSome, HaveMaps, hashes, live_from_all};
ghost use Rattle.cat_mark.specs.Walked.{AreMarked, AreWalked};

use crate::chains::kept_parent;
use crate::hashes::Hashes;
use crate::walked::Walked;
use cat_codes::fault::NoMemory;
use cat_graph::graph::Graph;
use cat_keymap::maps::Maps;
use cat_model::commit::Commit;
use cat_model::cutoff::Cutoff;
use cat_names::hash::Hash;

impl Hashes {
    /// Marks what a commit shows: nothing, where it was walked from; what its map has at the keys
    /// that it changes, where its parent was; and what that has at all keys otherwise.
    fn mark_last(
        &mut self,
        graph: &Graph,
        maps: &Maps,
        walked: &Walked,
        at: &Hash,
        commit: &Commit,
    ) -> Result<(), NoMemory>
        requires maps { HaveMaps graph.now maps.now }
        requires found { commit_of graph.now at.now ≡ Some commit.now }
        requires walked { AreWalked graph.now self.old walked.now }
        ensures ok { OnOk result (AddsAll self.old self.new (hashes (entries graph.now at.now))) }
        ensures err { OnErr result (AddsSome self.old self.new (hashes (entries graph.now at.now))) }
    {
        graph.known();
        commit.ops.known();
        if walked.has(at) {
            return Ok(());
        }
        if walked.has(&commit.parent) {
            return self.mark_changed_at(maps, at, commit);
        }
        self.mark_all_at(maps, at)
    }

    /// Marks what is live from a head's commit: what each of the commits that are kept changes, up
    /// to one that was walked from, and what the last of them shows.
    fn mark_chain(
        &mut self,
        graph: &Graph,
        maps: &Maps,
        walked: &Walked,
        head: &Hash,
        first: &Commit,
        cutoff: &Cutoff,
    ) -> Result<(), NoMemory>
        requires maps { HaveMaps graph.now maps.now }
        requires found { commit_of graph.now head.now ≡ Some first.now }
        requires walked { AreWalked graph.now self.old walked.now }
        ensures ok { OnOk result
            (AddsAll self.old self.new (live_from graph.now cutoff.now head.now)) }
        ensures err { OnErr result
            (AddsSome self.old self.new (live_from graph.now cutoff.now head.now)) }
    {
        graph.known();
        cutoff.known();
        // No index passes the number of commits.
        let _ = graph.len();
        let mut at = head;
        let mut commit = first;
        let mut index = 0;
        while !walked.covers(at, cutoff, index) {
            let Some(parent) = kept_parent(graph, cutoff, index + 1, commit) else {
                return self.mark_last(graph, maps, walked, at, commit);
            };
            commit.ops.known();
            self.mark_changed_at(maps, at, commit)?;
            at = &commit.parent;
            commit = parent;
            index += 1;
        }
        Ok(())
    }

    /// Notes that a head's commit was walked from, and each commit that is kept of its chain before
    /// one that was noted already; or fewer, where memory runs out.
    fn note_chain(
        &self,
        graph: &Graph,
        walked: &mut Walked,
        head: &Hash,
        first: &Commit,
        cutoff: &Cutoff,
    )
        requires found { commit_of graph.now head.now ≡ Some first.now }
        requires marked { AreMarked self.now (live_from graph.now cutoff.now head.now) }
        requires walked { AreWalked graph.now self.now walked.old }
        ensures { AreWalked graph.now self.now walked.new }
    {
        graph.known();
        cutoff.known();
        // No index passes the number of commits.
        let _ = graph.len();
        let mut at = head;
        let mut commit = first;
        let mut index = 0;
        while !walked.covers(at, cutoff, index) {
            if walked.note(*at, *cutoff, index).is_err() {
                return;
            }
            let Some(parent) = kept_parent(graph, cutoff, index + 1, commit) else {
                return;
            };
            at = &commit.parent;
            commit = parent;
            index += 1;
        }
    }

    /// Marks what is live from a head, and notes what was walked.
    pub(crate) fn mark_head(
        &mut self,
        graph: &Graph,
        maps: &Maps,
        walked: &mut Walked,
        head: &Hash,
        cutoff: &Cutoff,
    ) -> Result<(), NoMemory>
        requires maps { HaveMaps graph.now maps.now }
        requires walked { AreWalked graph.now self.old walked.old }
        ensures ok { OnOk result
            (AddsAll self.old self.new (live_from graph.now cutoff.now head.now)) }
        ensures err { OnErr result
            (AddsSome self.old self.new (live_from graph.now cutoff.now head.now)) }
        ensures walked { OnOk result (AreWalked graph.now self.new walked.new) }
    {
        let Some(commit) = graph.get(head) else {
            return Ok(());
        };
        self.mark_chain(graph, maps, walked, head, commit, cutoff)?;
        self.note_chain(graph, walked, head, commit, cutoff);
        Ok(())
    }

    /// Marks what is live from each of the heads, and notes what was walked.
    pub(crate) fn mark_heads(
        &mut self,
        graph: &Graph,
        maps: &Maps,
        walked: &mut Walked,
        heads: &[(Hash, Cutoff)],
    ) -> Result<(), NoMemory>
        requires maps { HaveMaps graph.now maps.now }
        requires walked { AreWalked graph.now self.old walked.old }
        ensures ok { OnOk result (AddsAll self.old self.new (live_from_all graph.now heads.now)) }
        ensures err { OnErr result (AddsSome self.old self.new (live_from_all graph.now heads.now)) }
        ensures walked { OnOk result (AreWalked graph.now self.new walked.new) }
    {
        for (head, cutoff) in heads {
            self.mark_head(graph, maps, walked, head, cutoff)?;
        }
        Ok(())
    }

    /// Notes that heads were walked from, where what is live from each of them is marked.
    pub(crate) fn note_heads(&self, graph: &Graph, walked: &mut Walked, heads: &[(Hash, Cutoff)])
        requires marked { AreMarked self.now (live_from_all graph.now heads.now) }
        requires walked { AreWalked graph.now self.now walked.old }
        ensures { AreWalked graph.now self.now walked.new }
    {
        for (head, cutoff) in heads {
            if let Some(commit) = graph.get(head) {
                self.note_chain(graph, walked, head, commit, cutoff);
            }
        }
    }
}
