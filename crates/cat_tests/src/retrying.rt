//! Calls whose branch moves while they build.

ghost use Rattle.std.specs.Prelude.{◌≤◌};
ghost use Rattle.cat_desk.specs.Pass.{IsFree, Keeps};
ghost use Rattle.cat_work.specs.Passes.{IsReady};

use crate::asking::{change, desk_of, left, make, second};
use crate::requests::{
    ASSIGN_AWAY, ASSIGN_BACK, CREATE_DEV, MERGE_DEV, NONE, PUT_A1, PUT_A2, PUT_M2, PUT_ON_DEV,
    PUT_T1, TRANSPLANT_DEV,
};
use crate::rival::{Acts, Rival};
use cat_core::Store;
use cat_desk::{Desk, Pass};
use cat_io::MemoryClock;
use cat_keeper::MemKeeper;
use cat_model::limits::Limits;
use cat_model::refusal::{Refusal, Refused};
use cat_model::reply::Told;
use cat_names::hash::Hash;
use cat_work::call;
use std::alloc::Global;
use std::process::Abort;
use std::sync::Wait;

/// What a rival does, and in how many attempts the call is made.
#[derive(Drop)]
struct Contest<'a> {
    asked: &'a str,
    first: &'a str,
    second: &'a str,
    acts: Acts,
    attempts: u32,
}

/// Makes a call on a pass while a rival on another changes the catalogue; the rival's clock starts
/// at two seconds.
fn meet<R: Abort + Wait>(
    rt: &R,
    alloc: Global,
    desk: &Desk<Store<MemKeeper>>,
    one: &mut Pass,
    two: Pass,
    clock: &mut MemoryClock,
    contest: &Contest<'_>,
) -> (Result<Told, Refused>, Pass)
    requires one { IsReady desk.now one.old }
    requires two { IsReady desk.now two }
    requires attempts { (1 ≤ contest.now.attempts) × (contest.now.attempts ≤ 64) }
    ensures one { IsReady desk.now one.new }
    ensures two { IsFree desk.now result.1 }
{
    let mut rival = Rival {
        rt,
        alloc,
        desk,
        pass: two,
        clock: MemoryClock::new(2_000_000, 1_000_000),
        first: change(rt, alloc, contest.first),
        second: change(rt, alloc, contest.second),
        acts: contest.acts,
    };
    let command = change(rt, alloc, contest.asked);
    let answer = call(
        rt,
        alloc,
        desk,
        one,
        &mut rival,
        clock,
        contest.attempts,
        &command,
    );
    drop(command);
    (answer, rival.end())
}

/// Makes a change, if any.
fn make_some<R: Abort + Wait>(
    rt: &R,
    alloc: Global,
    desk: &Desk<Store<MemKeeper>>,
    pass: &mut Pass,
    clock: &mut MemoryClock,
    text: Option<&str>,
)
    requires { IsReady desk.now pass.old }
    ensures ready { IsReady desk.now pass.new }
    ensures kept { Keeps desk.now pass.old pass.new }
{
    if let Some(text) = text {
        drop(make(rt, alloc, desk, pass, clock, text));
    }
}

/// What a call comes to after these changes, and then a commit of `t1` on `main`.
fn contested<R: Abort + Wait>(
    rt: &R,
    alloc: Global,
    before: [Option<&str>; 2],
    contest: &Contest<'_>,
) -> (Result<Told, Refused>, Result<Told, Refused>)
    requires { (1 ≤ contest.now.attempts) × (contest.now.attempts ≤ 64) }
{
    let (desk, mut one) = desk_of(rt, alloc, Limits::program(), &[]);
    let two = second(rt, &desk, &mut one);
    let mut clock = MemoryClock::new(1_000_000, 1_000_000);
    make_some(rt, alloc, &desk, &mut one, &mut clock, before[0]);
    make_some(rt, alloc, &desk, &mut one, &mut clock, before[1]);
    let (answer, two) = meet(rt, alloc, &desk, &mut one, two, &mut clock, contest);
    let later = make(rt, alloc, &desk, &mut one, &mut clock, PUT_T1);
    desk.join(&mut one, two);
    desk.give_up(one);
    (answer, later)
}

fn are_pairs(found: &[(u32, Hash)], wanted: &[(u32, &str)]) -> bool {
    for (pair, (place, digits)) in found.iter().zip(wanted) {
        if pair.0 != *place || Some(pair.1) != Hash::parse(digits) {
            return false;
        }
    }
    found.len() == wanted.len()
}

/// Whether a call has spent its attempts, at this place, on heads of these digits at these places.
fn has_spent(answer: Result<Told, Refused>, place: u32, wanted: &[(u32, &str)]) -> bool {
    let is_so = match &answer {
        Ok(_) => false,
        Err(refused) => match &refused.why {
            Refusal::RetriesSpent(pairs) => {
                refused.place == Some(place) && are_pairs(pairs.as_slice(), wanted)
            }
            _ => false,
        },
    };
    drop(answer);
    is_so
}

/// Whether a commit of `t1` on `main`, while `a1` and `a2` are committed there, has spent its
/// attempts so, and whether the next commit of `t1` was accepted and left this.
fn spends<R: Abort + Wait>(
    rt: &R,
    alloc: Global,
    acts: Acts,
    attempts: u32,
    wanted: &[(u32, &str)],
    next: (u32, &str),
) -> (bool, bool)
    requires { (1 ≤ attempts) × (attempts ≤ 64) }
{
    let contest = Contest {
        asked: PUT_T1,
        first: PUT_A1,
        second: PUT_A2,
        acts,
        attempts,
    };
    let (answer, later) = contested(rt, alloc, [None, None], &contest);
    let place = next.0.saturating_sub(1);
    (
        has_spent(answer, place, wanted),
        left(later, next.0, next.1),
    )
}

// A draft number is used by the call that spent its attempts, and by each commit of the rival.
#[test]
fn a_head_that_moves_before_each_attempt_spends_them(rt: HostRuntime) {
    let alloc = rt.alloc();
    let first = "3fcb82d345c47e74bd68050f52652fa59d4872d23c43c790f2dfad89c781dc4d";
    let second = "87fafcd5765231db40da43db519165aa2d6799ba97f2f1e1b0c7a93544993d11";
    let pairs = [(0, NONE), (1, first), (2, second)];
    let next = (
        3,
        "cf1156f48eb2d0b4e5ce86dd522099aa226171cc6dabdee49869741466770bd1",
    );
    assert!(&rt; spends(&rt, alloc, Acts::EachTime, 2, &pairs, next) == (true, true));
    let (is_spent, _) = spends(&rt, alloc, Acts::Once, 1, &pairs[..2], (2, NONE));
    assert!(&rt; is_spent);
}

/// Whether a call was accepted at this place, and left this, where a rival acts against it.
fn comes_through<R: Abort + Wait>(
    rt: &R,
    alloc: Global,
    before: [Option<&str>; 2],
    contest: &Contest<'_>,
    place: u32,
    head: &str,
) -> bool
    requires { (1 ≤ contest.now.attempts) × (contest.now.attempts ≤ 64) }
{
    let (answer, later) = contested(rt, alloc, before, contest);
    drop(later);
    left(answer, place, head)
}

#[test]
fn a_second_attempt_is_made_on_the_head_that_moved(rt: HostRuntime) {
    let dev = [Some(CREATE_DEV), Some(PUT_ON_DEV)];
    for (before, asked, place, head) in [
        (
            [None, None],
            PUT_T1,
            2,
            "42b0389fd76fffd148e48a9ade4b21efb3b91274560da702f8d29b3e7fdd5c87",
        ),
        (
            dev,
            MERGE_DEV,
            4,
            "a25c5797848b5f118fadfac0735d3b3b99905e9eedea77e5c05d5417ceec337c",
        ),
        (
            dev,
            TRANSPLANT_DEV,
            4,
            "37c51ca67459511844eff31d64c07ddac1a2a06fa46c66133c79399d2c7ae80b",
        ),
    ] {
        let contest = Contest {
            asked,
            first: PUT_A1,
            second: PUT_A1,
            acts: Acts::Once,
            attempts: 2,
        };
        assert!(&rt;
            comes_through(&rt, rt.alloc(), before, &contest, place, head),
            "{asked}"
        );
    }
}

#[test]
fn a_head_that_moved_away_and_back_is_the_one_that_was_built_on(rt: HostRuntime) {
    let contest = Contest {
        asked: PUT_M2,
        first: ASSIGN_AWAY,
        second: ASSIGN_BACK,
        acts: Acts::BothAtOnce,
        attempts: 1,
    };
    let head = "e4c39f0d2bee1a8a7984cdaa976351e590192dfef970e440c8d86c0f1dc83434";
    let before = [Some(PUT_T1), None];
    assert!(&rt; comes_through(&rt, rt.alloc(), before, &contest, 4, head));
}
