//! Turns of several passes on one desk.

ghost use Rattle.std.specs.Prelude.{◌≡◌, ◌+◌, ◌<◌, ◌≤◌};
ghost use Rattle.cat_desk.specs.Pass.{IsFree, Keeps, spare_of, stands_for};

use crate::notes::Notes;
use cat_codes::fault::NoMemory;
use cat_desk::{Desk, Gate, Hold, Pass};
use cat_model::logged::Logged;
use std::alloc::Global;
use std::process::Abort;
use std::sync::Wait;
use std::test::Fail;
use std::thread::join_mut;

/// A desk over an empty log.
fn desk_of_none<R: Abort>(rt: &R, alloc: Global) -> (Desk<Notes>, Pass)
    ensures free { IsFree result.0 result.1 }
    ensures alone { (spare_of result.1 ≡ 4294967294) × (stands_for result.1 ≡ 1) }
{
    match Desk::new(alloc, Notes::new(alloc)) {
        Ok(both) => both,
        Err(_) => panic!(rt; "there is memory"),
    }
}

/// Adds an entry in a turn, and tells how many there were.
fn add<R: Wait>(rt: &R, alloc: Global, desk: &Desk<Notes>, pass: &mut Pass) -> Option<u32>
    requires { IsFree desk.now pass.old }
    ensures { Keeps desk.now pass.old pass.new }
{
    let mut held = desk.enter(rt, pass);
    let before = held.value.count();
    let added = held.value.add(alloc, pass.number());
    desk.leave(held, pass);
    added.ok()?;
    Some(before)
}

/// Adds a hundred entries, each in a turn of its own.
fn add_hundred<R: Wait>(rt: &R, alloc: Global, desk: &Desk<Notes>, pass: &mut Pass)
    requires { IsFree desk.now pass.old }
    ensures { Keeps desk.now pass.old pass.new }
{
    for _ in 0..100 {
        let _ = add(rt, alloc, desk, pass);
    }
}

/// How many entries are of a caller, read in a turn.
fn count_of<R: Wait>(rt: &R, desk: &Desk<Notes>, pass: &mut Pass, caller: u32) -> usize
    requires { IsFree desk.now pass.old }
    ensures { Keeps desk.now pass.old pass.new }
{
    let held = desk.enter(rt, pass);
    let found = held.value.count_of(caller);
    desk.leave(held, pass);
    found
}

/// Whether a gate that awaits so many entries for so many turns had them in time.
fn is_in_time<R: Wait>(
    rt: &R,
    desk: &Desk<Notes>,
    pass: &mut Pass,
    entries: u32,
    turns: u32,
) -> bool
    requires { IsFree desk.now pass.old × (0 < spare_of pass.old) }
    ensures { IsFree desk.now pass.new × (spare_of pass.old ≤ spare_of pass.new + 1) }
{
    let Ok(own) = desk.split(pass) else {
        return false;
    };
    let mut gate = Hold::new(rt, desk, own, entries, turns);
    gate.between(pass, 1);
    let (own, in_time) = gate.end();
    desk.join(pass, own);
    in_time
}

/// How many entries there are, those of the first pass and those of the second.
fn counts_of(notes: Notes) -> [usize; 3] {
    let counts = [notes.count() as usize, notes.count_of(1), notes.count_of(2)];
    drop(notes);
    counts
}

#[test]
fn a_pass_reads_an_entry_that_it_met_and_a_desk_that_ends_gives_all(rt: HostRuntime) {
    let alloc = rt.alloc();
    let (desk, mut one) = desk_of_none(&rt, alloc);
    let Ok(mut two) = desk.split(&mut one) else {
        panic!(rt; "a split takes no memory");
    };
    assert!(rt; one.number() == 1 && two.number() == 2);
    assert!(rt; two.meet(&desk) == 0);
    assert!(rt; add(&rt, alloc, &desk, &mut one) == Some(0));
    assert!(rt; two.meet(&desk) == 1);
    assert!(rt; count_of(&rt, &desk, &mut two, 1) == 1);
    desk.join(&mut one, two);
    let notes = match desk.close(one) {
        Ok(notes) => notes,
        Err((desk, pass, _)) => {
            desk.give_up(pass);
            panic!(rt; "a close takes no memory")
        }
    };
    assert!(rt; counts_of(notes) == [1, 1, 0]);
}

#[test]
fn two_threads_add_each_entry_once(rt: HostRuntime) {
    let alloc = rt.alloc();
    let (desk, mut one) = desk_of_none(&rt, alloc);
    let Ok(mut two) = desk.split(&mut one) else {
        panic!(rt; "a split takes no memory");
    };
    join_mut(
        &rt,
        &mut || add_hundred(&rt, alloc, &desk, &mut one),
        &mut || add_hundred(&rt, alloc, &desk, &mut two),
    );
    desk.join(&mut one, two);
    let notes = match desk.close(one) {
        Ok(notes) => notes,
        Err((desk, pass, _)) => {
            desk.give_up(pass);
            panic!(rt; "a close takes no memory")
        }
    };
    assert!(rt; counts_of(notes) == [200, 100, 100]);
}

#[test]
fn a_gate_that_waits_too_short_is_late(rt: HostRuntime) {
    let alloc = rt.alloc();
    let (desk, mut one) = desk_of_none(&rt, alloc);
    let late = is_in_time(&rt, &desk, &mut one, 1, 3);
    let in_time = is_in_time(&rt, &desk, &mut one, 0, 1);
    desk.give_up(one);
    assert!(rt; !late);
    assert!(rt; in_time);
}

/// A log with an entry of another caller.
fn one_note(alloc: Global) -> Option<Notes> {
    let mut notes = Notes::new(alloc);
    let added = notes.add(alloc, 7);
    if added.is_err() {
        drop(notes);
        return None;
    }
    Some(notes)
}

/// The log, and whether it was on a desk, where two passes met it.
fn through_desk<R: Wait + Abort>(rt: &R, alloc: Global, notes: Notes) -> (Notes, bool) {
    let (desk, mut one) = match Desk::new(alloc, notes) {
        Ok(both) => both,
        Err((notes, NoMemory)) => return (notes, false),
    };
    let Ok(mut two) = desk.split(&mut one) else {
        panic!(rt; "a split takes no memory");
    };
    let met = two.meet(&desk);
    let found = count_of(rt, &desk, &mut two, 7);
    assert!(rt; met == 1 && found == 1);
    desk.join(&mut one, two);
    match desk.close(one) {
        Ok(notes) => (notes, true),
        Err((desk, pass, _)) => {
            desk.give_up(pass);
            panic!(rt; "a close takes no memory")
        }
    }
}

// Memory may be refused at any place of it, and it tells where: only the making of a desk takes
// some.
#[test]
fn a_desk_that_is_refused_hands_its_value_back_whole(rt: HostRuntime) -> Result<(), Fail> {
    let alloc = rt.alloc();
    let Some(notes) = one_note(alloc) else {
        println!(rt; "refused before the desk")?;
        return Ok(());
    };
    let (notes, was_made) = through_desk(&rt, alloc, notes);
    let counts = (notes.count(), notes.count_of(7));
    drop(notes);
    assert!(rt; counts == (1, 1));
    if was_made {
        println!(rt; "the desk was made")?;
    } else {
        println!(rt; "the desk was refused")?;
    }
    Ok(())
}
