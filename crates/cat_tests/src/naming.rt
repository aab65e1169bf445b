//! Sweeps that are given names while they are open: as many as they may hold, and one more.

ghost use Rattle.cat_desk.specs.Pass.{IsFree};
ghost use Rattle.cat_work.specs.Passes.{IsReady};

use crate::asking::{desk_of, second};
use crate::collected::{COLLECT, FOUR, FOUR_TOLD};
use crate::meeting::{Exchange, writes};
use crate::named::{
    COLLECT_TWICE, FULL_OF_ONE, FULL_OF_ONE_TWICE, FULL_OF_TWO, KEPT_1_AT_5, KEPT_1_OF_2_AT_6,
    KEPT_1_OF_3_AT_6, KEPT_2_AT_5, KEPT_3_AT_5, KEPT_3_OF_6_AT_6, KEPT_ALL_AT_7, ONE_NAME,
    ONE_NAME_TOLD, PUT_TWO, PUT_TWO_TOLD, PUT_TWO_TOLD_LATER, THREE_NAMES, THREE_NAMES_TOLD,
    TWO_NAMES, TWO_NAMES_TOLD,
};
use crate::relay::{Board, Relay};
use cat_core::Store;
use cat_desk::{Desk, NoGate, Pass};
use cat_keeper::MemKeeper;
use cat_model::limits::Limits;
use std::alloc::Global;
use std::process::Abort;
use std::sync::Wait;
use std::thread::{Threads, join_mut};
use std::time::Clock;

/// Plays a session whose gate, where it is asked first, puts a note and waits for the second one.
/// Whether the session writes what it is to, and the note came.
fn play_held<R: Abort + Wait + Threads + Sync + Clock>(
    rt: &R,
    alloc: Global,
    desk: &Desk<Store<MemKeeper>>,
    pass: &mut Pass,
    board: &Board,
    exchange: Exchange,
) -> bool
    requires { IsReady desk.now pass.old }
    ensures { IsReady desk.now pass.new }
{
    let mut relay = Relay::new(rt, board, (2, 0));
    let is_right = writes(rt, alloc, desk, pass, &mut relay, exchange);
    is_right && relay.asked().is_some()
}

/// Plays a session behind the first note, and puts the second one. Whether the note came, and the
/// session writes what it is to.
fn play_between<R: Abort + Wait + Threads + Sync + Clock>(
    rt: &R,
    alloc: Global,
    desk: &Desk<Store<MemKeeper>>,
    pass: &mut Pass,
    board: &Board,
    exchange: Exchange,
) -> bool
    requires { IsReady desk.now pass.old }
    ensures { IsReady desk.now pass.new }
{
    let is_asked = board.wait(rt, 1);
    let is_right = writes(rt, alloc, desk, pass, &mut NoGate {}, exchange);
    board.put(rt);
    is_right && is_asked
}

/// What is asked where a sweep may hold so many names, and what is to be told: of a session, of the
/// one that comes to its gate, and of a collection behind both.
#[derive(Clone, Copy)]
struct Case {
    names: u64,
    own: (&'static str, &'static str),
    visit: (&'static str, &'static str),
    after: &'static str,
}

/// Whether nothing is open in the store of a desk.
fn is_closed<R: Wait>(rt: &R, desk: &Desk<Store<MemKeeper>>, pass: &mut Pass) -> bool
    requires { IsFree desk.now pass.old }
    ensures { IsFree desk.now pass.new }
{
    let held = desk.enter(rt, pass);
    let is_closed = held.value.drafts() == 0 && held.value.sweeping().is_none();
    desk.leave(held, pass);
    is_closed
}

/// Whether each session writes what it is to, on four commits of one table: that before, the
/// session, the one that comes to its gate, and the one behind both; and whether nothing is open
/// then.
fn meet<R: Abort + Wait + Threads + Sync + Clock>(rt: &R, alloc: Global, case: &Case) -> [bool; 5] {
    let limits = Limits {
        names: case.names,
        ..Limits::program()
    };
    let (desk, mut one) = desk_of(rt, alloc, limits, &[]);
    let mut two = second(rt, &desk, &mut one);
    let before = Exchange::new(1_000_000, FOUR, FOUR_TOLD);
    let own = Exchange::new(5_000_000, case.own.0, case.own.1);
    let visit = Exchange::new(6_000_000, case.visit.0, case.visit.1);
    let after = Exchange::new(9_000_000, COLLECT, case.after);
    let board = Board::new();
    let begun = writes(rt, alloc, &desk, &mut one, &mut NoGate {}, before);
    let (is_right, is_visit_right) = join_mut(
        rt,
        &mut ||
            requires { IsReady desk one }
        { play_held(rt, alloc, &desk, &mut one, &board, own) },
        &mut ||
            requires { IsReady desk two }
        { play_between(rt, alloc, &desk, &mut two, &board, visit) },
    );
    let left = writes(rt, alloc, &desk, &mut one, &mut NoGate {}, after);
    desk.join(&mut one, two);
    let is_closed = is_closed(rt, &desk, &mut one);
    desk.give_up(one);
    [begun, is_right, is_visit_right, left, is_closed]
}

fn case_of(
    names: u64,
    own: (&'static str, &'static str),
    visit: (&'static str, &'static str),
    after: &'static str,
) -> Case {
    Case {
        names,
        own,
        visit,
        after,
    }
}

// Drafts come to an open sweep first, then a sweep to an open draft. A name that comes twice counts
// once. A sweep that is refused keeps nothing and makes no entry, and the next collection finds
// none open.
#[test]
fn a_sweep_holds_as_many_names_as_it_may_and_none_more(rt: HostRuntime) {
    let one = (ONE_NAME, ONE_NAME_TOLD);
    let two = (TWO_NAMES, TWO_NAMES_TOLD);
    let three = (THREE_NAMES, THREE_NAMES_TOLD);
    let first = (PUT_TWO, PUT_TWO_TOLD);
    let later = (PUT_TWO, PUT_TWO_TOLD_LATER);
    let twice = (COLLECT_TWICE, FULL_OF_ONE_TWICE);
    for case in [
        case_of(1, (COLLECT, KEPT_2_AT_5), one, KEPT_1_OF_2_AT_6),
        case_of(1, (COLLECT, FULL_OF_ONE), two, KEPT_1_AT_5),
        case_of(2, (COLLECT, KEPT_3_AT_5), two, KEPT_1_OF_3_AT_6),
        case_of(2, (COLLECT, FULL_OF_TWO), three, KEPT_1_AT_5),
        case_of(1, first, twice, KEPT_3_OF_6_AT_6),
        case_of(2, later, (COLLECT, KEPT_1_AT_5), KEPT_ALL_AT_7),
    ] {
        let are_right = meet(&rt, rt.alloc(), &case);
        assert!(&rt; are_right == [true; 5], "{} {}", case.names, case.after);
    }
}
