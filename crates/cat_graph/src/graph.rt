//! Commits and their chains.

ghost use Rattle.std.specs.Prelude.{◌≡◌, ◌≢◌, ◌≤◌, ◌<◌, ◌+◌, ◌-◌, ◌↔◌, [], ◌∷◌, ◌++◌, None, Err, IfOk, IsOk, IsTrue, OnOk, OnErr, length, nat_eq, reverse, slice_get, take, drop};
ghost use Rattle.std.specs.Option.{is_some, option_map};
ghost use Rattle.sha2.specs.Sha256.{sha256};
ghost use Rattle.cat_model.specs.State.{no_ancestor};
ghost use Rattle.cat_model.specs.Chain.{back, commit_of, generation, on_chain};
ghost use Rattle.cat_model.specs.Chain;
ghost use Rattle.cat_model.specs.Transplants.{are_children, are_consecutive, has_parent};
ghost use Rattle.cat_graph.specs.Linked.{AreLinked, IsNext, IsOther, hashes, is_known, is_merge_known, is_next, merge_generation, next_generation, values, with_commit};

use crate::add_fault::AddFault;
use cat_codes::fault::NoMemory;
use cat_model::commit::Commit;
use cat_names::hash::Hash;
use cat_tables::batch::Batch;
use cat_tables::table::Table;
use std::alloc::{AllocError, Global};
use std::marker::Model;

/// Commits under their hashes. A graph is never changed: one with more commits shares with it those
/// that it has. Contracts see the list, the newest first.
#[derive(Drop)]
pub struct Graph {
    table: Table<Commit>,
}

impl Model for Graph {
    ghost use Rattle.cat_model.specs.Chain.{Commits};
    ghost use Rattle.cat_graph.specs.Linked.{AreLinked};

    ghost Value = { Commits };

    ghost view = { λ g. g.table };

    ghost invariant = { λ g. AreLinked g.table };
}

/// Whether the commits are the same.
fn is_same(kept: &Commit, commit: &Commit) -> bool
    ensures { IsTrue result ↔ kept.now ≡ commit.now }
{
    *kept == *commit
}

impl Clone for Graph {
    ghost is_clone = { λ a b. b ≡ a };

    /// The same graph, which shares all commits.
    fn clone(&self) -> Result<Graph, AllocError> {
        Ok(Graph {
            table: self.table.clone()?,
        })
    }
}

impl Graph {
    /// No commits.
    pub fn new(alloc: Global) -> Graph
        ensures { result ≡ [] }
    {
        Graph {
            table: Table::new(alloc),
        }
    }

    /// What holds of each graph: no hash comes twice, each commit stands above its parents, and its
    /// generation is one more than the greatest of theirs.
    pub fn known(&self)
        ensures { AreLinked self.now }
    {
        let _ = &self.table;
    }

    /// The commits under their hashes, in the order in which they came.
    pub fn oldest_first(&self, alloc: Global) -> Result<Vec<(&Hash, &Commit)>, NoMemory>
        ensures { IfOk result (λ pairs. values pairs.items ≡ reverse self.now) }
    {
        self.table.by_arrival(alloc)
    }

    /// How many commits there are.
    pub fn len(&self) -> usize
        ensures { result ≡ length self.now }
    {
        self.table.len()
    }

    /// The commit of a hash.
    #[tactic(auto, using(crate::proofs::Walks::commit_is))]
    pub fn get(&self, hash: &Hash) -> Option<&Commit>
        ensures { option_map (λ c. c.now) result ≡ commit_of self.now hash.now }
    {
        self.table.get(hash)
    }

    /// Whether a commit has the hash, or it is the one that has no ancestor.
    pub fn is_known(&self, hash: &Hash) -> bool
        ensures { result ≡ is_known self.now hash.now }
    {
        self.get(hash).is_some() || Hash::none() == *hash
    }

    /// The generation of a hash; 0 for the one that has no ancestor, and for one that isn't known.
    #[tactic(auto, using(crate::proofs::Walks::generation_none, crate::proofs::Walks::generation_some))]
    pub fn generation(&self, hash: &Hash) -> u64
        ensures { result ≡ generation self.now hash.now }
    {
        match self.get(hash) {
            None => 0,
            Some(commit) => commit.generation,
        }
    }

    /// Whether a merge's other parent is known, where there is one.
    fn is_merge_known(&self, merge_parent: &Option<Hash>) -> bool
        ensures { result ≡ is_merge_known self.now merge_parent.now }
    {
        match merge_parent {
            None => true,
            Some(hash) => self.is_known(hash),
        }
    }

    /// The generation of a merge's other parent; 0 where there is none.
    fn merge_generation(&self, merge_parent: &Option<Hash>) -> u64
        ensures { result ≡ merge_generation self.now merge_parent.now }
    {
        match merge_parent {
            None => 0,
            Some(hash) => self.generation(hash),
        }
    }

    /// Whether the commit's generation is one more than the greatest of its parents'.
    fn has_next_generation(&self, commit: &Commit) -> bool
        ensures { result ≡ nat_eq commit.now.generation (next_generation self.now commit.now) }
    {
        let parent = self.generation(&commit.parent);
        let merge_parent = self.merge_generation(&commit.merge_parent);
        match commit.generation.checked_sub(1) {
            None => false,
            Some(before) => before == parent.max(merge_parent),
        }
    }

    fn passes(&self, hash: &Hash, commit: &Commit) -> bool
        ensures { result ≡ is_next self.now hash.now commit.now }
    {
        Hash::none() != *hash
            && self.is_known(&commit.parent)
            && self.is_merge_known(&commit.merge_parent)
            && self.has_next_generation(commit)
    }

    /// Whether the commit can be added under the hash, which isn't the one that has no ancestor:
    /// its parents are known, and its generation is one more than the greatest of theirs.
    #[tactic(auto, using(crate::proofs::Walks::next_decides))]
    pub fn is_next(&self, hash: &Hash, commit: &Commit) -> bool
        ensures { IsTrue result ↔ IsNext self.now hash.now commit.now }
    {
        self.passes(hash, commit)
    }

    /// The graph with the commits of a batch above its own.
    pub fn with(&self, alloc: Global, more: Batch<Commit>) -> Result<Graph, NoMemory>
        requires { AreLinked (more.list ++ self.now) }
        ensures { IfOk result (λ graph. graph ≡ more.list ++ self.now) }
    {
        Ok(Graph {
            table: self.table.with(alloc, more)?,
        })
    }

    /// The graph with the commits of a batch, as by [`Graph::with`]. One commit is put in the
    /// graph's own memory where no other graph shares it.
    pub fn into_with(self, alloc: Global, more: Batch<Commit>) -> Result<Graph, NoMemory>
        requires { AreLinked (more.list ++ self) }
        ensures { IfOk result (λ graph. graph ≡ more.list ++ self) }
    {
        Ok(Graph {
            table: self.table.into_with(alloc, more)?,
        })
    }

    /// The graph with one commit more. One that is there changes nothing, and another commit under
    /// the hash is a collision.
    pub fn add(&self, alloc: Global, hash: Hash, commit: Commit) -> Result<Graph, AddFault>
        requires next { IsNext self.now hash commit }
        ensures ok { IfOk result (λ graph. graph ≡ with_commit hash commit self.now) }
        ensures collision { (result ≡ Err AddFault.Collision)
            ↔ IsOther (commit_of self.now hash) commit }
    {
        self.known();
        if let Some(kept) = self.get(&hash) {
            if is_same(kept, &commit) {
                return match self.clone() {
                    Ok(graph) => Ok(graph),
                    Err(_) => Err(AddFault::NoMemory),
                };
            }
            return Err(AddFault::Collision);
        }
        let mut more = Batch::new(alloc);
        more.reserve(1)?;
        more.push(hash, commit);
        Ok(self.with(alloc, more)?)
    }

    /// Whether the hash is on the chain of the head, which ends in the hash that has no ancestor.
    pub fn on_chain(&self, head: &Hash, hash: &Hash) -> bool
        ensures { result ≡ on_chain self.now head.now hash.now }
    {
        self.known();
        let mut at = *head;
        while at != *hash {
            let Some(commit) = self.get(&at) else {
                return false;
            };
            at = commit.parent;
        }
        true
    }

    fn walked_back(&self, hash: &Hash, n: u32) -> Option<Hash>
        ensures { result ≡ back self.now hash.now n }
    {
        self.known();
        let mut at = *hash;
        let mut left = n;
        while left > 0 {
            let Some(child) = self.get(&at) else {
                return None;
            };
            at = child.parent;
            left -= 1;
        }
        Some(at)
    }

    /// The member of this number of the chain of a hash, counted from 0, which is the hash itself.
    /// The last one is the hash that has no ancestor; none past it. One look-up for each step, and
    /// no memory.
    #[tactic(auto, using(crate::proofs::Members::back_on_chain))]
    pub fn back(&self, hash: &Hash, n: u32) -> Option<Hash>
        ensures back { result ≡ back self.now hash.now n }
        ensures on_chain { IsTrue (is_known self.now hash.now)
            → result
            ≡ slice_get (hashes (Chain.chain self.now hash.now) ++ no_ancestor sha256 ∷ []) n }
    {
        self.known();
        self.walked_back(hash, n)
    }

    /// The first commits of the chain of a hash, under their hashes, at most so many.
    pub fn chain<'a>(
        &'a self,
        alloc: Global,
        from: &'a Hash,
        limit: usize,
    ) -> Result<Vec<(&'a Hash, &'a Commit)>, NoMemory>
        ensures { IfOk result (λ v. values v.items ≡ take limit (Chain.chain self.now from.now)) }
    {
        self.known();
        let mut found = Vec::new(alloc);
        let mut at = from;
        while found.len() < limit {
            let Some(commit) = self.get(at) else {
                return Ok(found);
            };
            found.push((at, commit))?;
            at = &commit.parent;
        }
        Ok(found)
    }

    /// Whether there is a commit of the hash, and its parent is this one.
    fn is_child(&self, parent: &Hash, hash: &Hash) -> bool
        ensures { result ≡ has_parent parent.now (commit_of self.now hash.now) }
    {
        match self.get(hash) {
            None => false,
            Some(commit) => commit.parent == *parent,
        }
    }

    /// Whether each is the hash of a commit whose parent is the one before, the first one's this.
    fn are_children(&self, first: &Hash, hashes: &[Hash]) -> bool
        ensures { result ≡ are_children self.now first.now hashes.now }
    {
        let mut parent = first;
        for hash in hashes {
            if !self.is_child(parent, hash) {
                return false;
            }
            parent = hash;
        }
        true
    }

    /// Whether each is the hash of a commit, and each but the first has the one before for its
    /// parent.
    pub fn consecutive(&self, hashes: &[Hash]) -> bool
        ensures { result ≡ are_consecutive self.now hashes.now }
    {
        match hashes {
            [] => true,
            [first, others @ ..] => self.get(first).is_some() && self.are_children(first, others),
        }
    }
}
