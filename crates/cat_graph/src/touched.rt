//! The keys that commits touched.

ghost use Rattle.std.specs.Prelude.{IfOk, IfSome, OnOk, Some, ◌≡◌, ◌++◌};
ghost use Rattle.cat_model.specs.Chain.{commit_of, entries};
ghost use Rattle.cat_model.specs.Maps.{Change};
ghost use Rattle.cat_graph.specs.Touched.{Covers, between, keys_named, touched_within};

use crate::graph::Graph;
use cat_codes::fault::NoMemory;
use cat_codes::seq::Seq;
use cat_model::commit::Commit;
use cat_model::entry::Entry;
use cat_names::hash::Hash;
use cat_names::key::ContentKey;
use std::alloc::Global;

/// Adds the keys of changes.
fn add_keys(
    out: &mut Seq<ContentKey>,
    changes: &[(ContentKey, Option<Entry>)],
) -> Result<(), NoMemory>
    ensures { OnOk result (out.new ≡ out.old ++ keys_named changes.now) }
{
    for (key, _) in changes {
        out.push(key.clone()?)?;
    }
    Ok(())
}

impl Graph {
    /// The keys that the commit of a hash touched.
    pub fn touched_at(
        &self,
        alloc: Global,
        hash: &Hash,
        commit: &Commit,
    ) -> Result<Seq<ContentKey>, NoMemory>
        requires { commit_of self.now hash.now ≡ Some commit.now }
        ensures exact { IfOk result (λ keys. keys ≡ keys_named commit.now.ops) }
        ensures covers { IfOk result
            (λ keys. Covers keys (entries self.now commit.now.parent)
            (entries self.now hash.now)) }
    {
        self.known();
        let mut keys = Seq::new(alloc);
        add_keys(&mut keys, commit.ops.as_slice())?;
        Ok(keys)
    }

    /// The keys that the commits of the chain of a hash touched, down to another hash and without
    /// its commit: a key as often as it was touched. None where that hash isn't on the chain, or
    /// commits and keys are more than so many together.
    pub fn touched(
        &self,
        alloc: Global,
        from: &Hash,
        to: &Hash,
        most: usize,
    ) -> Result<Option<Seq<ContentKey>>, NoMemory>
        ensures exact { IfOk result
            (λ found. found ≡ touched_within most (between self.now from.now to.now)) }
        ensures covers { IfOk result
            (λ found. IfSome found
            (λ keys. Covers keys (entries self.now to.now) (entries self.now from.now))) }
    {
        self.known();
        let mut keys = Seq::new(alloc);
        let mut left = most;
        let mut at = *from;
        while at != *to {
            let Some(commit) = self.get(&at) else {
                return Ok(None);
            };
            if commit.ops.len() >= left {
                return Ok(None);
            }
            add_keys(&mut keys, commit.ops.as_slice())?;
            left = left - commit.ops.len() - 1;
            at = commit.parent;
        }
        Ok(Some(keys))
    }
}
