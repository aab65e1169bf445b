//! Heads that are shared out among workers, each with a set of its own.

ghost use Rattle.std.specs.Prelude.{[], ◌<◌, ◌≤◌, IfOk, OnErr, OnOk};
ghost use Rattle.cat_mark.specs.Marks.{AddsAll, AddsSome, AreShares, HaveMaps, live_from_all};
ghost use Rattle.cat_mark.specs.Walked.{AreWalked};

use crate::hashes::Hashes;
use crate::roots::Roots;
use crate::walked::Walked;
use cat_codes::fault::NoMemory;
use cat_graph::graph::Graph;
use cat_keymap::maps::Maps;
use cat_model::cutoff::Cutoff;
use cat_names::hash::Hash;
use std::alloc::Global;
use std::thread::{Threads, map_chunks};

/// What is live from each of the heads, in a set of its own.
fn set_of(
    alloc: Global,
    graph: &Graph,
    maps: &Maps,
    heads: &[(Hash, Cutoff)],
) -> Result<Hashes, NoMemory>
    requires { HaveMaps graph.now maps.now }
    ensures { IfOk result (λ set. AddsAll [] set (live_from_all graph.now heads.now)) }
{
    let mut set = Hashes::new(alloc);
    let mut walked = Walked::new(alloc);
    set.mark_heads(graph, maps, &mut walked, heads)?;
    Ok(set)
}

/// What is live from each chunk of so many heads, in a set of its own, unless there was no memory
/// for it. Each chunk has a thread of its own, where one can be made.
pub(crate) fn sets_of<R: Threads + Sync>(
    rt: &R,
    alloc: Global,
    graph: &Graph,
    maps: &Maps,
    heads: &[(Hash, Cutoff)],
    size: usize,
) -> Result<Vec<Result<Hashes, NoMemory>>, NoMemory>
    requires maps { HaveMaps graph.now maps.now }
    requires size { 0 < size }
    ensures { IfOk result (λ sets. AreShares graph.now heads.now size sets.items) }
{
    Ok(map_chunks(
        rt,
        alloc,
        heads,
        size,
        &|_, share| set_of(alloc, graph, maps, share),
    )?)
}

impl Hashes {
    /// Marks what is live from each of the heads, by so many workers, and notes what was walked.
    /// Each of them walks a map of its own at least, which pays where the sets that they make are
    /// most of what is marked then: not where hashes are marked already.
    pub(crate) fn mark_shares<R: Threads + Sync>(
        &mut self,
        rt: &R,
        alloc: Global,
        graph: &Graph,
        maps: &Maps,
        walked: &mut Walked,
        heads: &[(Hash, Cutoff)],
        workers: usize,
    ) -> Result<(), NoMemory>
        requires maps { HaveMaps graph.now maps.now }
        requires walked { AreWalked graph.now self.old walked.old }
        requires some { 0 < workers }
        ensures ok { OnOk result (AddsAll self.old self.new (live_from_all graph.now heads.now)) }
        ensures err { OnErr result (AddsSome self.old self.new (live_from_all graph.now heads.now)) }
        ensures walked { OnOk result (AreWalked graph.now self.new walked.new) }
    {
        let size = heads.len().div_ceil(workers).max(1);
        if size >= heads.len() || self.len() > 0 {
            return self.mark_heads(graph, maps, walked, heads);
        }
        match sets_of(rt, alloc, graph, maps, heads, size) {
            Ok(sets) => self.add_sets(graph, maps, walked, heads, size, sets.as_slice()),
            Err(_) => self.mark_heads(graph, maps, walked, heads),
        }
    }

    /// Adds the sets of shares, and notes their heads. Where one is missing, what is live from the
    /// heads is marked here.
    fn add_sets(
        &mut self,
        graph: &Graph,
        maps: &Maps,
        walked: &mut Walked,
        heads: &[(Hash, Cutoff)],
        size: usize,
        sets: &[Result<Hashes, NoMemory>],
    ) -> Result<(), NoMemory>
        requires maps { HaveMaps graph.now maps.now }
        requires walked { AreWalked graph.now self.old walked.old }
        requires shares { AreShares graph.now heads.now size sets.now }
        ensures ok { OnOk result (AddsAll self.old self.new (live_from_all graph.now heads.now)) }
        ensures err { OnErr result (AddsSome self.old self.new (live_from_all graph.now heads.now)) }
        ensures walked { OnOk result (AreWalked graph.now self.new walked.new) }
    {
        for set in sets {
            match set {
                Ok(set) => self.add_set(set)?,
                Err(_) => return self.mark_heads(graph, maps, walked, heads),
            }
        }
        self.note_heads(graph, walked, heads);
        Ok(())
    }
}
