//! The merge base of two commits.

ghost use Rattle.std.specs.Prelude.{◌≡◌, ◌<◌, [], ◌∷◌, false, IfOk, OnOk, IsTrue, length};
ghost use Rattle.cat_names.specs.declared.hash.Hash.{Hash};
ghost use Rattle.cat_model.specs.Base.{base, common_ancestors, is_among, is_nearer};
ghost use Rattle.cat_graph.specs.Fronts.{GoesOn, HaveGenerations, reached};
ghost use Rattle.cat_graph.specs.Linked.{is_known};

use crate::front::{Front, Reached};
use crate::graph::Graph;
use cat_codes::fault::NoMemory;
use cat_names::hash::Hash;
use std::alloc::Global;
use std::cmp::Ordering;

impl Graph {
    /// The hash with its generation.
    fn reached(&self, hash: &Hash) -> Reached
        ensures { result ≡ reached self.now hash.now }
    {
        Reached::new(self.generation(hash), *hash)
    }

    /// A front of one hash.
    fn front(&self, alloc: Global, hash: &Hash) -> Result<Front, NoMemory>
        ensures { IfOk result (λ f. f ≡ reached self.now hash.now ∷ []) }
    {
        let mut front = Front::new(alloc);
        front.put(self.reached(hash))?;
        Ok(front)
    }

    /// Goes on from the nearest hash of a front to its parents. One that is there once more is only
    /// taken off, so that each hash is gone on from once.
    fn go_on(&self, front: &mut Front) -> Result<(), NoMemory>
        requires generations { HaveGenerations self.now front.old }
        requires some { 0 < length front.old }
        ensures { OnOk result (GoesOn self.now front.old front.new) }
    {
        self.known();
        let Some(at) = front.take() else {
            unreachable!()
        };
        if front.nearest() == Some(at) {
            return Ok(());
        }
        let Some(commit) = self.get(&at.hash.0) else {
            return Ok(());
        };
        front.put(self.reached(&commit.parent))?;
        if let Some(merge_parent) = &commit.merge_parent {
            front.put(self.reached(merge_parent))?;
        }
        Ok(())
    }

    /// The merge base of two commits: their common ancestor of the greatest generation, and of
    /// these the one of the least hash.
    ///
    /// From each side it goes on from the ancestors that are nearer than the base, and from no
    /// others: each costs the look-ups of its parents and a place for them in a heap.
    pub fn base(&self, alloc: Global, left: &Hash, right: &Hash) -> Result<Hash, NoMemory>
        requires left { IsTrue (is_known self.now left.now) }
        requires right { IsTrue (is_known self.now right.now) }
        ensures value { IfOk result (λ h. h ≡ base self.now left.now right.now) }
        ensures common { IfOk result
            (λ h. IsTrue (is_among (common_ancestors self.now left.now right.now) h)) }
        ensures nearest { IfOk result
            (λ h. (x : Hash) → IsTrue (is_among (common_ancestors self.now left.now right.now) x)
            → is_nearer self.now x h ≡ false) }
        ensures known { IfOk result (λ h. IsTrue (is_known self.now h)) }
    {
        self.known();
        let mut left_front = self.front(alloc, left)?;
        let mut right_front = self.front(alloc, right)?;
        loop {
            let Some(left_at) = left_front.nearest() else {
                unreachable!()
            };
            let Some(right_at) = right_front.nearest() else {
                unreachable!()
            };
            match left_at.cmp(&right_at) {
                Ordering::Equal => return Ok(left_at.hash.0),
                Ordering::Greater => self.go_on(&mut left_front)?,
                Ordering::Less => self.go_on(&mut right_front)?,
            }
        }
    }
}
