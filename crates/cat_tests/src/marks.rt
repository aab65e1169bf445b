//! Marks of what is live.

ghost use Rattle.std.specs.Prelude.{◌≤◌};

use crate::asking::change;
use crate::requests::PUT_T2;
use crate::views::view_of_one;
use cat_codes::fault::NoMemory;
use cat_codes::seq::Seq;
use cat_graph::graph::Graph;
use cat_keymap::maps::Maps;
use cat_mark::{Marks, Roots};
use cat_model::cutoff::Cutoff;
use cat_names::hash::Hash;
use cat_state::catalogue::Catalogue;
use std::alloc::Global;
use std::test::Fail;
use std::thread::Threads;

fn hash(n: u8) -> Hash {
    Hash { bytes: [n; 32] }
}

/// A head that no commit has, and three hashes, of which one comes twice.
fn roots(alloc: Global) -> Result<Roots, Fail> {
    let mut heads = Seq::new(alloc);
    heads.push((hash(1), Cutoff::All))?;
    let mut hashes = Seq::new(alloc);
    hashes.push(hash(2))?;
    hashes.push(hash(3))?;
    hashes.push(hash(2))?;
    Ok(Roots { heads, hashes })
}

/// What these mark where there are no commits, beside a hash that was marked before.
fn marked<R: Threads + Sync>(rt: &R, alloc: Global) -> Result<Marks, Fail> {
    let roots = roots(alloc)?;
    let graph = Graph::new(alloc);
    let maps = Maps::new(alloc);
    let mut marks = Marks::empty(alloc);
    marks.add(hash(4))?;
    marks.mark_root(&graph, &maps, &Hash::none(), &Cutoff::Commits(1))?;
    marks.mark_all(rt, alloc, &graph, &maps, &roots, 1)?;
    Ok(marks)
}

fn are_right(marks: &Marks) -> bool {
    marks.len() == 3
        && marks.has(&hash(2))
        && marks.has(&hash(3))
        && marks.has(&hash(4))
        && !marks.has(&hash(1))
        && !marks.has(&Hash::none())
}

#[test]
fn roots_without_commits_mark_their_hashes(rt: HostRuntime) -> Result<(), Fail> {
    let marks = marked(&rt, rt.alloc())?;
    let right = are_right(&marks);
    drop(marks);
    assert!(rt; right);
    Ok(())
}

/// Five heads, of which the one at this place is given and the others are no commits', and two
/// hashes.
fn roots_at(alloc: Global, place: u8, head: Hash) -> Result<Roots, NoMemory> {
    let mut heads = Seq::new(alloc);
    for n in 0..5u8 {
        let other = hash(n);
        heads.push((if n == place { head } else { other }, Cutoff::All))?;
    }
    let mut hashes = Seq::new(alloc);
    hashes.push(hash(8))?;
    hashes.push(hash(9))?;
    Ok(Roots { heads, hashes })
}

/// Whether these are the hashes of a catalogue's contents, of which there is one, and the two of
/// the roots.
fn are_all(alloc: Global, marks: &Marks, catalogue: &Catalogue) -> Result<bool, NoMemory> {
    let unmarked = marks.unmarked(alloc, catalogue.contents())?;
    Ok(unmarked.is_empty() && marks.len() == 3 && marks.has(&hash(8)) && marks.has(&hash(9)))
}

/// Whether so many workers mark the content that a catalogue's one commit shows, wherever that
/// commit stands among the heads.
fn mark_all_of<R: Threads + Sync>(
    rt: &R,
    alloc: Global,
    catalogue: &Catalogue,
    workers: u32,
) -> Result<bool, NoMemory>
    requires { (1 ≤ workers) × (workers ≤ 64) }
{
    let head = catalogue.main_head();
    for place in 0..5u8 {
        let roots = roots_at(alloc, place, head)?;
        let mut marks = Marks::empty(alloc);
        marks.mark_all(
            rt,
            alloc,
            catalogue.commits(),
            catalogue.maps(),
            &roots,
            workers,
        )?;
        if !are_all(alloc, &marks, catalogue)? {
            return Ok(false);
        }
    }
    Ok(true)
}

/// How many of a catalogue's contents no roots mark.
fn unmarked_by_none(alloc: Global, catalogue: &Catalogue) -> Result<usize, NoMemory> {
    Ok(
        Marks::empty(alloc)
            .unmarked(alloc, catalogue.contents())?
            .len(),
    )
}

#[test]
fn any_number_of_workers_marks_one_set(rt: HostRuntime) {
    let alloc = rt.alloc();
    let drafted = change(&rt, alloc, PUT_T2);
    let view = view_of_one(&rt, alloc, &drafted);
    drop(drafted);
    let catalogue = view.catalogue();
    let unmarked = unmarked_by_none(alloc, catalogue);
    let marked = [
        mark_all_of(&rt, alloc, catalogue, 1),
        mark_all_of(&rt, alloc, catalogue, 2),
        mark_all_of(&rt, alloc, catalogue, 4),
        mark_all_of(&rt, alloc, catalogue, 64),
    ];
    drop(view);
    assert!(rt; unmarked == Ok(1));
    assert!(rt; marked == [Ok(true), Ok(true), Ok(true), Ok(true)]);
}
