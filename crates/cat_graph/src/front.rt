//! Hashes to go on from, the nearest on top.

ghost use Rattle.std.specs.Prelude.{◌≡◌, [], ◌∷◌, IfSome, OnOk, slice_get, IsPermutation};
ghost use Rattle.std.specs.BinaryHeap.{IsUpperBound};
ghost use Rattle.cat_graph.specs.Fronts.{nearness};

use cat_codes::fault::NoMemory;
use cat_names::hash::Hash;
use std::alloc::Global;
use std::cmp::Reverse;
use std::collections::BinaryHeap;
use std::marker::Model;

/// A hash and its generation. The nearer is the greater: of the greater generation, or of the same
/// one and the lesser hash.
#[derive(Clone, Copy, PartialEq, Eq, PartialOrd, Ord)]
pub(crate) struct Reached {
    pub(crate) generation: u64,
    pub(crate) hash: Reverse<Hash>,
}

impl Reached {
    pub(crate) fn new(generation: u64, hash: Hash) -> Reached
        ensures { result ≡ record { generation = generation; hash = record { 0 = hash } } }
    {
        Reached {
            generation,
            hash: Reverse(hash),
        }
    }
}

/// Hashes to go on from. Contracts see their list, the nearest first and the others in no
/// particular order; a hash may come twice.
#[derive(Drop)]
pub(crate) struct Front {
    heap: BinaryHeap<Reached>,
}

impl Model for Front {
    ghost use Rattle.std.specs.Prelude.{List};
    ghost use Rattle.std.specs.BinaryHeap.{IsHeap, heap_items};
    ghost use Rattle.cat_graph.specs.declared.front.Reached.{Reached};
    ghost use Rattle.cat_graph.specs.Fronts.{nearness};

    ghost Value = { List Reached };

    ghost view = { λ f. heap_items f.heap };

    ghost invariant = { λ f. IsHeap nearness (heap_items f.heap) };
}

impl Front {
    /// No hashes.
    pub(crate) fn new(alloc: Global) -> Front
        ensures { result ≡ [] }
    {
        Front {
            heap: BinaryHeap::new(alloc),
        }
    }

    /// The nearest one.
    pub(crate) fn nearest(&self) -> Option<Reached>
        ensures first { result ≡ slice_get self.now 0 }
        ensures nearest { IfSome result (λ at. IsUpperBound nearness at self.now) }
    {
        self.heap.peek().copied()
    }

    /// Puts one in.
    pub(crate) fn put(&mut self, at: Reached) -> Result<(), NoMemory>
        ensures { OnOk result (IsPermutation (at ∷ self.old) self.new) }
    {
        self.heap.push(at)?;
        Ok(())
    }

    /// Takes the nearest one off.
    pub(crate) fn take(&mut self) -> Option<Reached>
        ensures first { result ≡ slice_get self.old 0 }
        ensures others { IfSome result (λ at. IsPermutation self.old (at ∷ self.new)) }
    {
        self.heap.pop()
    }
}
