//! A checkpoint of a store, and the store that is opened from it.

ghost use Rattle.std.specs.Prelude.{◌≡◌, None};
ghost use Rattle.cat_desk.specs.Pass.{IsFree, Keeps, spare_of, stands_for};
ghost use Rattle.cat_keeper.specs.MemoryKeepers.{keeper_down};
ghost use Rattle.cat_work.specs.Passes.{IsReady};

use crate::asking::{change, desk_of, make, second};
use crate::collecting::led_to;
use crate::requests::{CREATE_DEV, PUT_ON_DEV, PUT_T1};
use crate::views::{committed, counts};
use cat_codes::bytes::Bytes;
use cat_core::Store;
use cat_desk::{Desk, Gate, Pass};
use cat_io::MemoryClock;
use cat_keeper::{Keeper, MemKeeper};
use cat_model::limits::Limits;
use cat_work::{call, checkpoint};
use std::alloc::Global;
use std::process::Abort;
use std::sync::Wait;

/// The catalogue with one commit, as a checkpoint.
const STATE: &[u8] = b"\
    \x08\0\0\0\x01\0\0\0\0\0\0\0\x01\0\0\0\0\0\0\0\x01\0\0\0\x04main\x01\xf9-\xf1L)\x1cU\x08\x1a\
    ct\xc5\x07K\x13\x94\x01e\x91\xb1\x98\x1c\xd3+;\xdd\xb2\x0a?\x86\xd5\xd4\0\0\0\x01\0\0\0\x83N\
    C1.\x1c\xfa\x82\xb05\xc2l\xbb\xbd\xaec,\xea\x07\x05\x14\xeb\x8bw?aj\xae\xaff\x8e/\x0b\xe8\
    \xf1\x0d\0\0\0\0\0\0\0\0\x01\0\0\0\0\0\x0fB@\0\0\0\x03one\0\0\0\0\0\0\0\0\0\0\0\0\0\0\0\0\
    \x01\x01\0\x02t1\x01\x01\0\0\0\0\0\0\0\x01\0\0\0\0\0\0\0\0\xfc\xbe\"\x8a\xdc}\xb2\xe1\xca\
    \x9c\x94\xf6b\xf8lU%\x03\x8d\xe6&C\xebp\xd5\xd7)\x0d\x91\xfb\xab\x0a\0\0\0\x01\0\0\0+\x01\0\
    \0\0\0\0\0\0\x01\0\0\0\0\0\0\0\0\0\0\0\x02m1\0\0\0\0\0\0\0\x01\0\0\0\0\0\0\0\0\0\0\0\0";

/// What keeps the log of a store of one commit, once it was written as a checkpoint there.
fn checkpointed<R: Abort>(rt: &R, alloc: Global) -> MemKeeper
    ensures { keeper_down result ≡ None }
{
    let mut store = committed(rt, alloc);
    let Ok(told) = store.checkpoint(alloc, 1) else {
        panic!(rt; "nothing is open, and nothing failed");
    };
    let place = told.place;
    drop(told);
    assert!(rt; place == 1);
    let None = store.down() else {
        panic!(rt; "nothing failed");
    };
    store.into_keeper()
}

/// Whether a keeper goes on from these bytes, and has no entry behind them.
fn starts_from<R: Abort>(rt: &R, alloc: Global, keeper: &mut MemKeeper, bytes: &[u8]) -> bool
    ensures { keeper_down keeper.new ≡ keeper_down keeper.old }
{
    let Ok(Some(base)) = keeper.base(alloc) else {
        panic!(rt; "it has a base");
    };
    base.as_slice() == bytes && (keeper.count(), keeper.first(), keeper.total()) == (0, 1, 2)
}

#[test]
fn a_store_is_opened_from_its_checkpoint(rt: HostRuntime) {
    let alloc = rt.alloc();
    let mut keeper = checkpointed(&rt, alloc);
    assert!(rt; starts_from(&rt, alloc, &mut keeper, STATE));
    let Ok(store) = Store::open(alloc, keeper, Limits::program()) else {
        panic!(rt; "a log may start from it");
    };
    let found = store.counts();
    drop(store);
    assert!(rt; counts(&found, 1, 1));
}

#[test]
fn no_log_starts_from_a_state_over_its_limits(rt: HostRuntime) {
    let alloc = rt.alloc();
    let keeper = checkpointed(&rt, alloc);
    let limits = Limits {
        commits: 0,
        ..Limits::program()
    };
    assert!(rt; Store::open(alloc, keeper, limits).is_err());
}

/// A gate whose own caller commits to `dev` and makes a checkpoint before a call settles. It must be
/// ended.
struct Between<'a, R> {
    rt: &'a R,
    alloc: Global,
    desk: &'a Desk<Store<MemKeeper>>,
    pass: Pass,
    clock: MemoryClock,
}

impl<'a, R: Abort + Wait> Gate for Between<'a, R> {
    ghost use Rattle.std.specs.Prelude.{◌≡◌, [], ◌∷◌};
    ghost use Rattle.cat_desk.specs.Pass.{spare_of, stands_for};
    ghost use Rattle.cat_work.specs.Passes.{IsReady};

    ghost ready = { λ b. IsReady b.desk.now b.pass
        × (stands_for b.pass ≡ 1)
        × (spare_of b.pass ≡ 0) };

    ghost desks = { λ b. b.desk.now ∷ [] };

    fn between(&mut self, _pass: &Pass, _attempt: u32) {
        drop(make(
            self.rt,
            self.alloc,
            self.desk,
            &mut self.pass,
            &mut self.clock,
            PUT_ON_DEV,
        ));
        drop(checkpoint(self.rt, self.alloc, self.desk, &mut self.pass));
    }
}

impl<'a, R> Between<'a, R> {
    /// Gives the pass back.
    fn end(self) -> Pass
        ensures { result ≡ self.entry.pass }
    {
        let Between {
            rt: _,
            alloc: _,
            desk: _,
            pass,
            clock: _,
        } = self;
        pass
    }
}

/// Commits to `main` on a pass. Between its draft's opening and its settling the other pass commits
/// to `dev` and makes a checkpoint.
fn commit_across<R: Abort + Wait>(
    rt: &R,
    alloc: Global,
    desk: &Desk<Store<MemKeeper>>,
    one: &mut Pass,
    two: Pass,
    clock: &mut MemoryClock,
) -> Pass
    requires one { IsReady desk.now one.old }
    requires two { IsReady desk.now two × (stands_for two ≡ 1) × (spare_of two ≡ 0) }
    ensures one { Keeps desk.now one.old one.new }
    ensures two { IsFree desk.now result × (stands_for result ≡ 1) × (spare_of result ≡ 0) }
{
    let mut between = Between {
        rt,
        alloc,
        desk,
        pass: two,
        clock: MemoryClock::new(2_000_000, 1_000_000),
    };
    let command = change(rt, alloc, PUT_T1);
    drop(call(rt, alloc, desk, one, &mut between, clock, 8, &command));
    drop(command);
    between.end()
}

/// A store with such a commit.
fn committed_across<R: Abort + Wait>(rt: &R, alloc: Global) -> Store<MemKeeper> {
    let (desk, mut one) = desk_of(rt, alloc, Limits::program(), &[]);
    let two = second(rt, &desk, &mut one);
    let mut clock = MemoryClock::new(1_000_000, 1_000_000);
    drop(make(rt, alloc, &desk, &mut one, &mut clock, CREATE_DEV));
    let two = commit_across(rt, alloc, &desk, &mut one, two, &mut clock);
    desk.join(&mut one, two);
    match desk.close(one) {
        Ok(store) => store,
        Err((desk, pass, _)) => {
            desk.give_up(pass);
            panic!(rt; "a close takes no memory")
        }
    }
}

/// Whether a payload begins so.
fn begins(payload: Option<&Bytes>, front: &[u8]) -> bool {
    match payload {
        Some(bytes) => bytes.as_slice().starts_with(front),
        None => false,
    }
}

/// The payloads of a store, and its state behind them, as a checkpoint.
fn told_with_state<R: Abort>(rt: &R, alloc: Global, store: Store<MemKeeper>) -> MemKeeper {
    let mut store = store;
    let Ok(told) = store.checkpoint(alloc, 1) else {
        panic!(rt; "nothing is open, and nothing failed");
    };
    drop(told);
    store.into_keeper()
}

/// Whether two keepers have the same last payload.
fn end_alike(one: &MemKeeper, two: &MemKeeper) -> bool {
    match (one.payloads().last(), two.payloads().last()) {
        (Some(one), Some(two)) => one.as_slice() == two.as_slice(),
        _ => false,
    }
}

// `dev` is made at place 1, where the commit to `main` opens draft 1; that to `dev` has place 2 and
// draft 2. So the checkpoint is of place 2 and of 2 as the greatest draft number, and draft 1 is
// open; behind it stands one entry, the commit at place 3 of draft 1. The last payload is the state.
#[test]
fn a_draft_that_was_open_at_a_checkpoint_is_an_entry_behind_it(rt: HostRuntime) {
    let alloc = rt.alloc();
    let left = told_with_state(&rt, alloc, committed_across(&rt, alloc));
    let payloads = left.payloads();
    assert!(rt; payloads.len() == 5);
    let base = b"\x08\0\0\0\x02\0\0\0\0\0\0\0\x02\0\0\0\x01\0\0\0\0\0\0\0\x01";
    assert!(rt; begins(payloads.get(2), base));
    assert!(rt; begins(payloads.get(3), b"\x04\0\0\0\x03\0\0\0\0\0\0\0\x01"));
    let Some(store) = led_to(alloc, payloads, 4) else {
        panic!(rt; "the entry may follow the checkpoint");
    };
    let again = told_with_state(&rt, alloc, store);
    assert!(rt; end_alike(&left, &again));
}
