//! Sets of marks, and what roots add to them.

ghost use Rattle.std.specs.Prelude.{◌≡◌, ◌≤◌, ◌&&◌, [], ◌∷◌, false, IfOk, OnErr, OnOk, is_some, length, not};
ghost use Rattle.std.specs.List.{IsDistinct};
ghost use Rattle.cat_names.specs.declared.hash.Hash.{Hash};
ghost use Rattle.cat_model.specs.Base.{is_among};
ghost use Rattle.cat_model.specs.Chain.{Commits};
ghost use Rattle.cat_model.specs.Cutoffs.{live_from};
ghost use Rattle.cat_model.specs.Same.{same_hash};
ghost use Rattle.cat_tables.specs.Tables.{value_of};
ghost use Rattle.cat_mark.specs.Marks.{AddsAll, AddsSome, HaveMaps, is_marked, live_from_all, live_of};
ghost use Rattle.cat_mark.specs.Walked.{HaveWalked};

use crate::hashes::Hashes;
use crate::roots::Roots;
use crate::walked::Walked;
use cat_codes::fault::NoMemory;
use cat_graph::graph::Graph;
use cat_keymap::maps::Maps;
use cat_model::cutoff::Cutoff;
use cat_names::hash::Hash;
use cat_tables::table::Table;
use std::alloc::Global;
use std::thread::Threads;

/// Hashes that are marked, and the commits that were walked from while they were marked, so that
/// what was walked once isn't walked again. What is walked later must be the graph of then, or one
/// with more commits.
#[derive(Drop)]
pub struct Marks {
    set: Hashes,
    walked: Walked,
}

impl Marks {
    /// Nothing is marked.
    pub fn empty(alloc: Global) -> Marks
        ensures none { result.set ≡ [] }
        ensures walked { (commits : Commits) → HaveWalked commits result }
    {
        Marks {
            set: Hashes::new(alloc),
            walked: Walked::new(alloc),
        }
    }

    /// Whether a hash is marked.
    pub fn has(&self, hash: &Hash) -> bool
        ensures { result ≡ is_marked self.now.set hash.now }
    {
        self.set.has(hash)
    }

    /// How many hashes are marked, none of them counted twice.
    pub fn len(&self) -> usize
        ensures count { result ≡ length self.now.set }
        ensures once { IsDistinct same_hash self.now.set }
    {
        self.set.len()
    }

    /// The hashes of a table that aren't marked, by one walk.
    pub fn unmarked<V: Drop>(
        &self,
        alloc: Global,
        contents: &Table<V>,
    ) -> Result<Vec<Hash>, NoMemory>
        ensures { IfOk result
            (λ hashes. (hash : Hash) → is_among hashes.items hash
            ≡ (is_some (value_of contents.now hash) && not (is_marked self.now.set hash))) }
    {
        self.set.unmarked(alloc, contents)
    }

    /// Marks a hash. Want of memory changes nothing, and comes only where the hash isn't marked.
    pub fn add(&mut self, hash: Hash) -> Result<(), NoMemory>
        ensures ok { OnOk result (AddsAll self.old.set self.new.set (hash ∷ [])) }
        ensures err { OnErr result
            ((x : Hash) → is_marked self.new.set x ≡ is_marked self.old.set x) }
        ensures absent { OnErr result (is_marked self.old.set hash ≡ false) }
        ensures walked { OnOk result
            ((commits : Commits) → HaveWalked commits self.old → HaveWalked commits self.new) }
    {
        self.set.add(hash)
    }

    /// Marks what is visible at the commits that a cutoff keeps of the chain of a head, which is
    /// nothing where the head is no commit's hash. Where memory runs out, a part of that may have
    /// been marked, and something of it is not.
    ///
    /// It costs the map at the oldest of these commits, and one look-up for each change of the
    /// others. A part of the chain that was walked for another head with the same cutoff isn't
    /// walked again, and the map of a commit whose parent was walked isn't either, but for the keys
    /// that the commit changes.
    pub fn mark_root(
        &mut self,
        graph: &Graph,
        maps: &Maps,
        head: &Hash,
        cutoff: &Cutoff,
    ) -> Result<(), NoMemory>
        requires maps { HaveMaps graph.now maps.now }
        requires walked { HaveWalked graph.now self.old }
        ensures ok { OnOk result
            (AddsAll self.old.set self.new.set (live_from graph.now cutoff.now head.now)) }
        ensures err { OnErr result
            (AddsSome self.old.set self.new.set (live_from graph.now cutoff.now head.now)) }
        ensures walked { OnOk result (HaveWalked graph.now self.new) }
    {
        self.set
            .mark_head(graph, maps, &mut self.walked, head, cutoff)
    }

    /// Marks what is live from each of the heads, as `mark_root` does.
    pub fn mark_heads(
        &mut self,
        graph: &Graph,
        maps: &Maps,
        heads: &[(Hash, Cutoff)],
    ) -> Result<(), NoMemory>
        requires maps { HaveMaps graph.now maps.now }
        requires walked { HaveWalked graph.now self.old }
        ensures ok { OnOk result
            (AddsAll self.old.set self.new.set (live_from_all graph.now heads.now)) }
        ensures err { OnErr result
            (AddsSome self.old.set self.new.set (live_from_all graph.now heads.now)) }
        ensures walked { OnOk result (HaveWalked graph.now self.new) }
    {
        self.set.mark_heads(graph, maps, &mut self.walked, heads)
    }

    /// Marks what roots keep live: what is visible at the commits that are kept of the chain of
    /// each head, and the hashes themselves. Where memory runs out, a part of that may have been
    /// marked, and something of it is not.
    ///
    /// Where nothing is marked yet, the heads are shared out among so many workers, each in a
    /// thread of its own where one can be made, with a set of its own. What a worker finds no
    /// memory for is marked here after it, so that want of memory for these sets alone is no
    /// failure. One worker has neither.
    pub fn mark_all<R: Threads + Sync>(
        &mut self,
        rt: &R,
        alloc: Global,
        graph: &Graph,
        maps: &Maps,
        roots: &Roots,
        workers: u32,
    ) -> Result<(), NoMemory>
        requires maps { HaveMaps graph.now maps.now }
        requires walked { HaveWalked graph.now self.old }
        requires some { 1 ≤ workers }
        ensures ok { OnOk result (AddsAll self.old.set self.new.set (live_of graph.now roots.now)) }
        ensures err { OnErr result
            (AddsSome self.old.set self.new.set (live_of graph.now roots.now)) }
        ensures walked { OnOk result (HaveWalked graph.now self.new) }
    {
        let heads = roots.heads.as_slice();
        self.set.mark_shares(
            rt,
            alloc,
            graph,
            maps,
            &mut self.walked,
            heads,
            workers as usize,
        )?;
        self.set.add_all(roots.hashes.as_slice())
    }
}
