//! Commits that were walked from.

ghost use Rattle.std.specs.Prelude.{◌≡◌, [], Some, IsTrue, OnErr, OnOk, is_some, if◌then◌else◌};
ghost use Rattle.cat_names.specs.declared.hash.Hash.{Hash};
ghost use Rattle.cat_model.specs.Same.{same_hash};
ghost use Rattle.cat_mark.specs.Walked.{Covers, KeepsAsFar, step_of};

use cat_codes::fault::NoMemory;
use cat_model::cutoff::Cutoff;
use cat_names::hash::Hash;
use std::alloc::Global;
use std::collections::HashMap;
use std::marker::Model;

/// Commits that were walked from, each with a cutoff and an index from which that keeps commits.
#[derive(Drop)]
pub(crate) struct Walked {
    steps: HashMap<Hash, (Cutoff, u64)>,
}

impl Model for Walked {
    ghost use Rattle.std.specs.Prelude.{ℕ, List};
    ghost use Rattle.cat_model.specs.declared.cutoff.Cutoff.{Cutoff};
    ghost use Rattle.cat_names.specs.declared.hash.Hash.{Hash};

    ghost Value = { List (Hash × (Cutoff × ℕ)) };

    ghost view = { λ w. w.steps.entries };
}

/// Whether two cutoffs keep the same.
fn is_same(one: &Cutoff, other: &Cutoff) -> bool
    ensures { IsTrue result → one.now ≡ other.now }
{
    match (one, other) {
        (Cutoff::All, Cutoff::All) => true,
        (Cutoff::Commits(count), Cutoff::Commits(other)) => count == other,
        (Cutoff::Since(moment), Cutoff::Since(other)) => moment.micros() == other.micros(),
        _ => false,
    }
}

/// Whether a cutoff keeps from one index on what it keeps from another on. A number of commits
/// alone depends on these.
fn keeps_as_far(cutoff: &Cutoff, first: u64, index: u64) -> bool
    ensures { IsTrue result → KeepsAsFar cutoff.now first index }
{
    match cutoff {
        Cutoff::Commits(_) => first <= index,
        _ => first <= index || 0 < index,
    }
}

impl Walked {
    /// No commits.
    pub(crate) fn new(alloc: Global) -> Walked
        ensures { result ≡ [] }
    {
        Walked {
            steps: HashMap::new(alloc),
        }
    }

    /// Whether a commit was walked from.
    pub(crate) fn has(&self, hash: &Hash) -> bool
        ensures { result ≡ is_some (step_of self.now hash.now) }
    {
        self.steps.contains_key(hash)
    }

    /// Whether a commit was walked from by this cutoff, and from an index from which that keeps as
    /// many commits.
    pub(crate) fn covers(&self, hash: &Hash, cutoff: &Cutoff, index: u64) -> bool
        ensures { IsTrue result → Covers (step_of self.now hash.now) cutoff.now index }
    {
        match self.steps.get(hash) {
            None => false,
            Some((walked, first)) => {
                is_same(walked, cutoff) && keeps_as_far(cutoff, *first, index)
            }
        }
    }

    /// Notes that a commit was walked from. Want of memory changes nothing.
    pub(crate) fn note(&mut self, hash: Hash, cutoff: Cutoff, index: u64) -> Result<(), NoMemory>
        ensures ok { OnOk result
            ((other : Hash) → step_of self.new other
            ≡ (if same_hash hash other then Some (cutoff, index) else step_of self.old other)) }
        ensures err { OnErr result
            ((other : Hash) → step_of self.new other ≡ step_of self.old other) }
    {
        self.steps.insert(hash, (cutoff, index))?;
        Ok(())
    }
}
