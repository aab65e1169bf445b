//! Commits that are added to a graph, and a long chain.

use cat_codes::ascending::Ascending;
use cat_codes::seq::Seq;
use cat_codes::text::Text;
use cat_graph::add_fault::AddFault;
use cat_graph::graph::Graph;
use cat_model::commit::{Commit, Meta};
use cat_model::moment::Moment;
use cat_names::hash::Hash;
use std::alloc::{AllocError, Global};

/// The hash of a number's bytes; of 0 the one that has no ancestor.
fn hash(n: u64) -> Hash {
    if n == 0 {
        return Hash::none();
    }
    Hash::of(n.to_be_bytes().as_slice())
}

fn meta(alloc: Global) -> Result<Meta, AllocError> {
    Ok(Meta {
        message: Text::from_str(alloc, "a commit")?,
        authors: Seq::new(alloc),
        signed: Seq::new(alloc),
        properties: Ascending::new(alloc),
        author_time: None,
    })
}

/// A commit without changes.
fn commit(
    alloc: Global,
    parent: u64,
    merge_parent: Option<u64>,
    generation: u64,
) -> Result<Commit, AllocError> {
    Ok(Commit {
        parent: hash(parent),
        merge_parent: merge_parent.map(|n| hash(n)),
        generation,
        time: Moment::from_micros(8),
        meta: meta(alloc)?,
        ops: Ascending::new(alloc),
    })
}

/// What an add of a commit answers.
#[derive(Clone, Copy, PartialEq, Eq)]
enum Answer {
    Added,
    Refused(AddFault),
    /// It doesn't stand on what is there.
    NotNext,
}

fn add(
    graph: &mut Graph,
    alloc: Global,
    n: u64,
    parent: u64,
    merge_parent: Option<u64>,
    generation: u64,
) -> Answer {
    let hash = hash(n);
    let Ok(commit) = commit(alloc, parent, merge_parent, generation) else {
        return Answer::Refused(AddFault::NoMemory);
    };
    if !graph.is_next(&hash, &commit) {
        drop(commit);
        return Answer::NotNext;
    }
    match graph.add(alloc, hash, commit) {
        Ok(more) => {
            *graph = more;
            Answer::Added
        }
        Err(fault) => Answer::Refused(fault),
    }
}

#[test]
fn a_hash_keeps_its_first_commit(rt: HostRuntime) {
    let alloc = rt.alloc();
    let mut graph = Graph::new(alloc);
    // 1 and 2 in a row, 3 and 4 above the second, and 5, which merges 4 into 3
    let answers = [
        add(&mut graph, alloc, 1, 0, None, 1),
        add(&mut graph, alloc, 2, 1, None, 2),
        add(&mut graph, alloc, 3, 2, None, 3),
        add(&mut graph, alloc, 4, 2, None, 3),
        add(&mut graph, alloc, 5, 3, Some(4), 4),
        add(&mut graph, alloc, 3, 2, None, 3),
    ];
    assert!(rt; answers == [Answer::Added; 6]);
    let other = add(&mut graph, alloc, 3, 2, Some(1), 3);
    assert!(rt; other == Answer::Refused(AddFault::Collision));
    let others = [
        add(&mut graph, alloc, 0, 1, None, 2),
        add(&mut graph, alloc, 9, 8, None, 1),
        add(&mut graph, alloc, 9, 1, Some(4), 2),
        add(&mut graph, alloc, 9, 1, None, 3),
    ];
    assert!(rt; others == [Answer::NotNext; 4]);
    assert!(rt; graph.len() == 5);
}

/// Whether the commits of a range of numbers are added above one another.
fn add_chain(graph: &mut Graph, alloc: Global, from: u64, to: u64) -> bool {
    for n in from..to {
        if add(graph, alloc, n.wrapping_add(1), n, None, n.wrapping_add(1)) != Answer::Added {
            return false;
        }
    }
    true
}

/// Whether this is the merge base of two commits, both of them known.
fn is_base(graph: &Graph, alloc: Global, left: u64, right: u64, n: u64) -> bool {
    let left = hash(left);
    let right = hash(right);
    if !graph.is_known(&left) || !graph.is_known(&right) {
        return false;
    }
    match graph.base(alloc, &left, &right) {
        Ok(found) => found == hash(n),
        Err(_) => false,
    }
}

/// The length of the walk down from a commit, at most so long.
fn walked(graph: &Graph, alloc: Global, from: u64, limit: usize) -> Option<usize> {
    let from = hash(from);
    match graph.chain(alloc, &from, limit) {
        Ok(pairs) => Some(pairs.len()),
        Err(_) => None,
    }
}

/// Whether this one stands so many commits before the thousandth.
fn is_before(graph: &Graph, n: u32, other: u64) -> bool {
    match graph.back(&hash(1000), n) {
        Some(found) => found == hash(other),
        None => false,
    }
}

#[test]
fn a_chain_of_a_thousand_commits_is_walked(rt: HostRuntime) {
    let alloc = rt.alloc();
    let mut graph = Graph::new(alloc);
    assert!(rt; add_chain(&mut graph, alloc, 0, 1000));
    // beside the chain, above its first commit
    assert!(rt; add(&mut graph, alloc, 2000, 1, None, 2) == Answer::Added);
    assert!(rt; graph.len() == 1001);
    assert!(rt; walked(&graph, alloc, 1000, 5000) == Some(1000));
    assert!(rt; graph.on_chain(&hash(1000), &hash(1)));
    assert!(rt; !graph.on_chain(&hash(1000), &hash(2000)));
    assert!(rt; is_base(&graph, alloc, 1000, 2000, 1));
    assert!(rt;
        is_before(&graph, 0, 1000) && is_before(&graph, 1, 999) && is_before(&graph, 999, 1)
    );
    assert!(rt; is_before(&graph, 1000, 0));
    assert!(rt; graph.back(&hash(1000), 1001).is_none());
    assert!(rt; graph.back(&hash(1000), 4_294_967_295).is_none());
}

/// How many keys the commits between two touched, if they come from the one to the other, and are
/// so few with their keys.
fn touched(graph: &Graph, alloc: Global, from: u64, to: u64, most: usize) -> Option<usize> {
    match graph.touched(alloc, &hash(from), &hash(to), most) {
        Ok(found) => found.map(|keys| keys.len()),
        Err(_) => None,
    }
}

#[test]
fn the_keys_of_too_many_commits_are_not_told(rt: HostRuntime) {
    let alloc = rt.alloc();
    let mut graph = Graph::new(alloc);
    assert!(rt; add_chain(&mut graph, alloc, 0, 9));
    assert!(rt; touched(&graph, alloc, 9, 4, 5) == Some(0));
    assert!(rt; touched(&graph, alloc, 9, 4, 4) == None);
    assert!(rt; touched(&graph, alloc, 9, 0, 9) == Some(0));
    assert!(rt; touched(&graph, alloc, 4, 9, 9) == None);
}

/// Whether a graph has a chain of so many commits and no more.
fn has_chain(graph: &Graph, alloc: Global, count: u64) -> bool {
    graph.len() as u64 == count
        && walked(graph, alloc, count, 5000) == Some(graph.len())
        && !graph.is_known(&hash(count.wrapping_add(1)))
}

#[test]
fn a_graph_with_more_commits_leaves_the_one_before(rt: HostRuntime) {
    let alloc = rt.alloc();
    let mut graph = Graph::new(alloc);
    assert!(rt; add_chain(&mut graph, alloc, 0, 400));
    let Ok(before) = graph.clone() else {
        panic!(rt; "there is memory");
    };
    assert!(rt; add_chain(&mut graph, alloc, 400, 600));
    assert!(rt; has_chain(&before, alloc, 400));
    assert!(rt; has_chain(&graph, alloc, 600));
    drop(graph);
    assert!(rt; has_chain(&before, alloc, 400));
}
