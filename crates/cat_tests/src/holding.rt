//! Calls that are held at their gates while others are answered.

ghost use Rattle.std.specs.Prelude.{◌<◌};
ghost use Rattle.cat_desk.specs.Pass.{IsFree, Keeps, spare_of};
ghost use Rattle.cat_work.specs.Passes.{IsReady};

use crate::asking::{Outcome, change, desk_of, make, outcome_of, second};
use crate::requests::{CREATE_DEV, PUT_ON_DEV, PUT_T1};
use cat_core::Store;
use cat_desk::{Desk, Hold, Pass};
use cat_io::MemoryClock;
use cat_keeper::MemKeeper;
use cat_model::limits::Limits;
use cat_work::call;
use std::alloc::Global;
use std::process::Abort;
use std::sync::Wait;
use std::thread::join_mut;

/// What comes of a change that is held until the log has so many entries; other where it was held
/// for too long.
fn make_held<R: Abort + Wait>(
    rt: &R,
    alloc: Global,
    desk: &Desk<Store<MemKeeper>>,
    pass: &mut Pass,
    text: &str,
    entries: u32,
) -> Outcome
    requires { IsReady desk.now pass.old × (0 < spare_of pass.old) }
    ensures { IsFree desk.now pass.new }
{
    let Ok(own) = desk.split(pass) else {
        panic!(rt; "a split takes no memory");
    };
    let command = change(rt, alloc, text);
    let mut gate = Hold::new(rt, desk, own, entries, 10_000_000);
    let mut clock = MemoryClock::new(1_000_000, 1_000_000);
    let answer = call(rt, alloc, desk, pass, &mut gate, &mut clock, 8, &command);
    drop(command);
    let (own, in_time) = gate.end();
    desk.join(pass, own);
    let found = outcome_of(answer);
    if in_time { found } else { Outcome::Other }
}

/// What comes of a change.
fn make_freely<R: Abort + Wait>(
    rt: &R,
    alloc: Global,
    desk: &Desk<Store<MemKeeper>>,
    pass: &mut Pass,
    text: &str,
) -> Outcome
    requires { IsReady desk.now pass.old }
    ensures ready { IsReady desk.now pass.new }
    ensures kept { Keeps desk.now pass.old pass.new }
{
    let mut clock = MemoryClock::new(1_000_000, 1_000_000);
    outcome_of(make(rt, alloc, desk, pass, &mut clock, text))
}

#[test]
fn a_call_builds_while_another_is_answered(rt: HostRuntime) {
    let alloc = rt.alloc();
    let (desk, mut one) = desk_of(&rt, alloc, Limits::program(), &[]);
    let created = make_freely(&rt, alloc, &desk, &mut one, CREATE_DEV);
    let mut two = second(&rt, &desk, &mut one);
    let (held, free) = join_mut(
        &rt,
        &mut ||
            requires { IsReady desk one × (0 < spare_of one) }
        { make_held(&rt, alloc, &desk, &mut one, PUT_T1, 2) },
        &mut ||
            requires { IsReady desk two }
        { make_freely(&rt, alloc, &desk, &mut two, PUT_ON_DEV) },
    );
    desk.join(&mut one, two);
    desk.give_up(one);
    assert!(rt; created == Outcome::Accepted(1));
    assert!(rt; free == Outcome::Accepted(2));
    assert!(rt; held == Outcome::Accepted(3));
}
