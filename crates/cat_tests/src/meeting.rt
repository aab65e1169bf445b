//! A collection and a merge that meet at their gates, so that each step of both is known.

ghost use Rattle.std.specs.Prelude.{◌≡◌};
ghost use Rattle.cat_work.specs.Passes.{IsReady};

use crate::asking::{desk_of, second};
use crate::collected::{
    AFTER, AFTER_TOLD, COLLECT, COLLECTED, FOUR, FOUR_TOLD, MEANWHILE, MEANWHILE_TOLD, MERGE,
    MERGED,
};
use crate::relay::{Board, Relay};
use cat_core::Store;
use cat_desk::{Desk, Gate, NoGate, Pass};
use cat_io::{MemoryClock, MemorySink, MemorySource};
use cat_keeper::MemKeeper;
use cat_model::limits::Limits;
use cat_serve::{Settings, serve_connection};
use std::alloc::Global;
use std::process::Abort;
use std::sync::Wait;
use std::thread::{Threads, join_mut};
use std::time::Clock;

/// What a session is sent, and what it is to write; its clock starts at so many microseconds.
#[derive(Clone, Copy)]
pub(crate) struct Exchange {
    start: u64,
    asked: &'static str,
    told: &'static str,
}

impl Exchange {
    pub(crate) fn new(start: u64, asked: &'static str, told: &'static str) -> Exchange {
        Exchange { start, asked, told }
    }
}

/// Whether a session on a pass writes what it is to.
pub(crate) fn writes<R: Abort + Wait + Threads + Sync, G: Gate>(
    rt: &R,
    alloc: Global,
    desk: &Desk<Store<MemKeeper>>,
    pass: &mut Pass,
    gate: &mut G,
    exchange: Exchange,
) -> bool
    requires ready { IsReady desk.now pass.old }
    requires gate { G.ready gate.old }
    ensures ready { IsReady desk.now pass.new }
    ensures gate { G.ready gate.new × (G.desks gate.new ≡ G.desks gate.old) }
{
    let (Ok(bytes), Ok(mut sink)) = (
        exchange.asked.as_bytes().to_vec(alloc),
        MemorySink::new(alloc, 65536, Vec::new(alloc)),
    ) else {
        panic!(rt; "there is memory");
    };
    let mut source = MemorySource::new(bytes, 4096, Vec::new(alloc));
    let mut clock = MemoryClock::new(exchange.start, 1_000_000);
    let settings = Settings {
        attempts: 8,
        markers: 2,
    };
    let _ = serve_connection(
        rt,
        alloc,
        desk,
        pass,
        &mut source,
        &mut sink,
        &mut clock,
        gate,
        settings,
    );
    sink.bytes() == exchange.told.as_bytes()
}

/// Collects, with a note before each round and one when it is over; the first round waits for the
/// second note, which tells of the branch, and the second for the fourth, where the draft is opened
/// then. Whether the session writes what it is to, and before how many rounds its gate was asked.
fn collect_meeting<R: Abort + Wait + Threads + Sync + Clock>(
    rt: &R,
    alloc: Global,
    desk: &Desk<Store<MemKeeper>>,
    pass: &mut Pass,
    board: &Board,
    in_second: bool,
) -> (bool, Option<u32>)
    requires { IsReady desk.now pass.old }
    ensures { IsReady desk.now pass.new }
{
    let collection = Exchange::new(5_000_000, COLLECT, COLLECTED);
    let awaited = if in_second { (2, 4) } else { (2, 0) };
    let mut relay = Relay::new(rt, board, awaited);
    let is_right = writes(rt, alloc, desk, pass, &mut relay, collection);
    board.put(rt);
    (is_right, relay.asked())
}

/// In the collection's first round asks for another one, and makes a branch; and opens a merge's
/// draft then, or in the second round, with a note each time that the collection may go on. The
/// draft settles behind the collection's last note. Whether the sessions write what they are to,
/// and before how many attempts the merge's gate was asked.
fn change_meeting<R: Abort + Wait + Threads + Sync + Clock>(
    rt: &R,
    alloc: Global,
    desk: &Desk<Store<MemKeeper>>,
    pass: &mut Pass,
    board: &Board,
    in_second: bool,
) -> (bool, Option<u32>)
    requires { IsReady desk.now pass.old }
    ensures { IsReady desk.now pass.new }
{
    let meanwhile = Exchange::new(6_000_000, MEANWHILE, MEANWHILE_TOLD);
    let merge = Exchange::new(8_000_000, MERGE, MERGED);
    let mut is_right = board.wait(rt, 1);
    is_right = writes(rt, alloc, desk, pass, &mut NoGate {}, meanwhile) && is_right;
    if in_second {
        board.put(rt);
        is_right = board.wait(rt, 3) && is_right;
    }
    let awaited = if in_second { (6, 0) } else { (4, 0) };
    let mut relay = Relay::new(rt, board, awaited);
    is_right = writes(rt, alloc, desk, pass, &mut relay, merge) && is_right;
    (is_right, relay.asked())
}

/// A collection and a merge that meet, on four commits of one table: whether each session writes
/// what it is to, those before and behind these too, and before how many attempts each gate was
/// asked.
fn meet<R: Abort + Wait + Threads + Sync + Clock>(
    rt: &R,
    alloc: Global,
    in_second: bool,
) -> ([bool; 4], [Option<u32>; 2]) {
    let (desk, mut one) = desk_of(rt, alloc, Limits::program(), &[]);
    let mut two = second(rt, &desk, &mut one);
    let before = Exchange::new(1_000_000, FOUR, FOUR_TOLD);
    let after = Exchange::new(9_000_000, AFTER, AFTER_TOLD);
    let board = Board::new();
    let begun = writes(rt, alloc, &desk, &mut one, &mut NoGate {}, before);
    let (collected, changed) = join_mut(
        rt,
        &mut ||
            requires { IsReady desk one }
        { collect_meeting(rt, alloc, &desk, &mut one, &board, in_second) },
        &mut ||
            requires { IsReady desk two }
        { change_meeting(rt, alloc, &desk, &mut two, &board, in_second) },
    );
    let left = writes(rt, alloc, &desk, &mut one, &mut NoGate {}, after);
    desk.join(&mut one, two);
    desk.give_up(one);
    (
        [begun, collected.0, changed.0, left],
        [collected.1, changed.1],
    )
}

// A second collection is refused, at place 4, and so is a checkpoint. Where the draft is opened in
// the first round too, the second round finds nothing missing; else the third.
#[test]
fn a_collection_keeps_what_is_made_and_named_beside_it(rt: HostRuntime) {
    for (in_second, rounds) in [(false, 2), (true, 3)] {
        let (are_right, asked) = meet(&rt, rt.alloc(), in_second);
        assert!(&rt; are_right == [true; 4], "{rounds}");
        assert!(&rt; asked == [Some(rounds), Some(1)], "{rounds}");
    }
}
