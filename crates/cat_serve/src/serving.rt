//! Serving a listener's connections by several workers at once.

ghost use Rattle.std.specs.Prelude.{All, Bool, IfSome, IsTrue, List, None, Option, [], drop, false, length, max, true, vec_capacity, vec_len, ℕ, ◌+◌, ◌++◌, ◌-◌, ◌<◌, ◌^◌, ◌||◌, ◌≡◌, ◌≢◌, ◌≤◌};
ghost use Rattle.std.specs.Option.{option_to_list};
ghost use Rattle.cat_desk.specs.Pass.{CarriesOn, HasNumber, Keeps, Remembers, number_of, spare_of, stands_for};
ghost use Rattle.cat_io.specs.Causes.{Rose};
ghost use Rattle.cat_io.specs.Listening.{Deals, OwnStay, Stands, TakesBack, TwinsStay};
ghost use Rattle.cat_work.specs.Passes.{IsReady};
ghost use Rattle.cat_serve.specs.Hiring.{AreBack, AreDealt, AreDone, AreNumbered, Counts, HasNone, IsBack, IsHired, IsIdle, ServesOwn};
ghost use Rattle.cat_serve.specs.Serving.{GrowsTo, TakenIn};
ghost use Rattle.cat_serve.specs.Sessions.{Readings};
ghost use Rattle.cat_serve.specs.Workers.{ComesBack, ServesAll, ends_of, first_split};

use crate::settings::Settings;
use crate::worker::{Worker, serve, serve_workers};
use cat_core::Store;
use cat_desk::{Desk, Pass};
use cat_io::{Clock, Listener};
use cat_keeper::Keeper;
use std::alloc::Global;
use std::sync::Wait;
use std::thread::{Threads, join_mut};

/// How serving ended.
#[derive(Clone, Copy, Drop)]
pub enum Served {
    /// No connection was left for any worker.
    End,
    /// The listener failed for some worker.
    ListenerFault,
    /// A twin, or the list of the workers, couldn't be had, and no connection was accepted.
    NoMemory,
}

/// Serves the listener's connections by 1 to 64 workers at once. The first is the caller's own, and
/// each other one has a pass, a twin of the listener and a twin of the clock. Each serves one
/// connection after another until there is none or its listener fails. All are then joined back.
#[allow(clippy::too_many_arguments)]
pub fn serve_all<R: Threads + Wait + Sync, K0: Keeper, L: Listener, C: Clock + Drop>(
    rt: &R,
    alloc: Global,
    desk: &Desk<Store<K0>>,
    pass: &mut Pass,
    listener: &mut L,
    clock: &mut C,
    workers: u32,
    settings: Settings,
) -> Served
    requires ready { IsReady desk.now pass.old }
    requires workers { (1 ≤ workers) × (workers ≤ 64) }
    requires spare { workers ≤ spare_of pass.old + 1 }
    requires attempts { (1 ≤ settings.attempts) × (settings.attempts ≤ 64) }
    requires markers { (1 ≤ settings.markers) × (settings.markers ≤ 64) }
    ensures serves { result ≢ Served.NoMemory
        → ServesAll (ends_of L.In.left L.In.faults L.Out.held L.Out.faults) desk.now
        settings.attempts workers (L.tells listener.old) (L.waiting listener.old)
        (L.waiting listener.new) (L.returned listener.old) (L.returned listener.new)
        (L.rejoined listener.old) (L.rejoined listener.new) (L.dealt listener.old)
        (L.dealt listener.new) (L.faults listener.old) (L.faults listener.new) pass.old
        (C.ahead clock.old) pass.new (C.ahead clock.new) }
    ensures end { result ≡ Served.End
        → IsTrue (L.tells listener.old)
        → L.waiting listener.new ≡ [] }
    ensures none { result ≡ Served.NoMemory
        → Remembers pass.old pass.new
        × (clock.new ≡ clock.old)
        × (IsTrue (L.tells listener.old)
        → (L.waiting listener.new ≡ L.waiting listener.old)
        × (L.returned listener.new ≡ L.returned listener.old)
        × ComesBack (L.dealt listener.old) (L.dealt listener.new) (L.rejoined listener.old)
        (L.rejoined listener.new)) }
    ensures ready { IsReady desk.now pass.new }
    ensures kept { (number_of pass.new ≡ number_of pass.old)
        × (stands_for pass.new + spare_of pass.new ≡ stands_for pass.old + spare_of pass.old) }
    ensures cause { result ≡ Served.ListenerFault
        → Rose (L.faults listener.old) (L.faults listener.new) }
    ensures stays { result ≢ Served.ListenerFault
        → L.faults listener.old < 2 ^ 64
        → L.faults listener.new ≡ L.faults listener.old }
    ensures stands { Stands L.tells L.listens listener.old listener.new }
    ensures away { IsTrue (L.tells listener.old)
        → (L.out listener.new ≡ L.out listener.old)
        × (L.twins listener.new ≡ L.twins listener.old) }
{
    let count = workers as usize - 1;
    let Ok(mut others) = Vec::with_capacity(alloc, count) else {
        return Served::NoMemory;
    };
    if !hire_all(desk, pass, listener, clock, &mut others, count) {
        dismiss(desk, pass, listener, others);
        return Served::NoMemory;
    }
    let own_failed = work(
        rt,
        alloc,
        desk,
        pass,
        listener,
        clock,
        &mut others,
        settings,
    );
    let others_failed = dismiss(desk, pass, listener, others);
    ended(own_failed | others_failed)
}

fn ended(failed: bool) -> Served
    ensures failed { failed ≡ true → result ≡ Served.ListenerFault }
    ensures end { failed ≡ false → result ≡ Served.End }
    ensures some { result ≢ Served.NoMemory }
{
    if failed {
        Served::ListenerFault
    } else {
        Served::End
    }
}

/// Hires so many workers, and says whether all could be had.
fn hire_all<K0: Keeper, L: Listener, C: Clock>(
    desk: &Desk<Store<K0>>,
    pass: &mut Pass,
    listener: &mut L,
    clock: &C,
    others: &mut Vec<Worker<L, C>>,
    count: usize,
) -> bool
    requires ready { IsReady desk.now pass.old }
    requires empty { others.old.items ≡ [] }
    requires room { (count ≤ vec_capacity others.old) × (count ≤ spare_of pass.old) }
    ensures ready { IsReady desk.now pass.new }
    ensures remembers { Remembers pass.old pass.new }
    ensures hired { All
        (IsHired L.tells L.returned L.faults C.ahead (L.tells listener.old) (C.ahead clock.now)
        desk.now pass.old) others.new.items }
    ensures numbered { AreNumbered (first_split pass.old) others.new.items }
    ensures all { result ≡ true → vec_len others.new ≡ count }
    ensures kept { (number_of pass.new ≡ number_of pass.old)
        × (stands_for pass.new ≡ stands_for pass.old)
        × (spare_of pass.new + vec_len others.new ≡ spare_of pass.old) }
    ensures faults { L.faults listener.new ≡ L.faults listener.old }
    ensures stands { Stands L.tells L.listens listener.old listener.new }
    ensures own { OwnStay L.waiting L.returned L.out listener.old listener.new }
    ensures rejoined { L.rejoined listener.new ≡ L.rejoined listener.old }
    ensures twins { IsTrue (L.tells listener.old)
        → L.twins listener.new ≡ L.twins listener.old + vec_len others.new }
    ensures dealt { AreDealt L.waiting (L.tells listener.old) (L.dealt listener.old)
        others.new.items }
    ensures rest { IsTrue (L.tells listener.old)
        → L.dealt listener.new ≡ drop (vec_len others.new) (L.dealt listener.old) }
{
    'hiring: while others.len() < count {
        let Some(worker) = hire(desk, pass, listener, clock) else {
            return false;
        };
        others.push_reserved(worker);
    }
    true
}

/// A worker with twins of the listener and of the clock; none where no twin of the listener can be
/// had.
fn hire<K0: Keeper, L: Listener, C: Clock>(
    desk: &Desk<Store<K0>>,
    pass: &mut Pass,
    listener: &mut L,
    clock: &C,
) -> Option<Worker<L, C>>
    requires ready { IsReady desk.now pass.old }
    requires spare { 0 < spare_of pass.old }
    ensures ready { IsReady desk.now pass.new }
    ensures remembers { Remembers pass.old pass.new }
    ensures hired { IfSome result
        (IsHired L.tells L.returned L.faults C.ahead (L.tells listener.old) (C.ahead clock.now)
        desk.now pass.old) }
    ensures number { IfSome result
        (λ worker. number_of worker.pass + spare_of pass.old ≡ 4294967296) }
    ensures kept { (number_of pass.new ≡ number_of pass.old)
        × (stands_for pass.new ≡ stands_for pass.old)
        × (spare_of pass.new + length (option_to_list result) ≡ spare_of pass.old) }
    ensures faults { L.faults listener.new ≡ L.faults listener.old }
    ensures stands { Stands L.tells L.listens listener.old listener.new }
    ensures own { OwnStay L.waiting L.returned L.out listener.old listener.new }
    ensures rejoined { L.rejoined listener.new ≡ L.rejoined listener.old }
    ensures twins { IsTrue (L.tells listener.old)
        → L.twins listener.new ≡ L.twins listener.old + length (option_to_list result) }
    ensures deals { IfSome result
        (λ worker. IsTrue (L.tells listener.old)
        → Deals L.waiting (L.dealt listener.old) (L.dealt listener.new) worker.listener) }
    ensures stays { result ≡ None → L.dealt listener.new ≡ L.dealt listener.old }
{
    let Ok(twin) = listener.twin() else {
        return None;
    };
    let Ok(other) = desk.split(pass) else {
        unreachable!()
    };
    Some(Worker {
        listener: twin,
        pass: other,
        clock: clock.twin(),
        failed: false,
    })
}

/// The caller serves, and each of the others in a thread of its own. Says whether the caller's
/// listener failed.
#[allow(clippy::too_many_arguments)]
fn work<R: Threads + Wait + Sync, K0: Keeper, L: Listener, C: Clock>(
    rt: &R,
    alloc: Global,
    desk: &Desk<Store<K0>>,
    pass: &mut Pass,
    listener: &mut L,
    clock: &mut C,
    others: &mut Vec<Worker<L, C>>,
    settings: Settings,
) -> bool
    requires ready { IsReady desk.now pass.old }
    requires others { All (IsBack L.faults desk.now) others.old.items }
    requires attempts { (1 ≤ settings.attempts) × (settings.attempts ≤ 64) }
    requires markers { (1 ≤ settings.markers) × (settings.markers ≤ 64) }
    ensures serves { ServesOwn (ends_of L.In.left L.In.faults L.Out.held L.Out.faults) desk.now
        settings.attempts (L.tells listener.old) (L.waiting listener.old) (L.waiting listener.new)
        (L.returned listener.old) (L.returned listener.new) pass.old (C.ahead clock.old) pass.new
        (C.ahead clock.new) }
    ensures end { result ≡ false → IsTrue (L.tells listener.old) → L.waiting listener.new ≡ [] }
    ensures ready { IsReady desk.now pass.new }
    ensures kept { Keeps desk.now pass.old pass.new }
    ensures counts { Counts result (L.faults listener.old) (L.faults listener.new) }
    ensures stands { Stands L.tells L.listens listener.old listener.new }
    ensures out { IsTrue (L.tells listener.old) → L.out listener.new ≡ L.out listener.old }
    ensures others { TwinsStay L.rejoined L.twins L.dealt listener.old listener.new }
    ensures len { vec_len others.new ≡ vec_len others.old }
    ensures done { (told : Bool) (ahead : Option Readings) (p : Pass)
        (dealt : List (List (L.In × L.Out)))
        → All (IsHired L.tells L.returned L.faults C.ahead told ahead desk.now p) others.old.items
        → AreDealt L.waiting told dealt others.old.items
        → AreDone (ends_of L.In.left L.In.faults L.Out.held L.Out.faults) desk.now
        settings.attempts L.waiting L.returned L.faults told ahead p dealt others.new.items }
    ensures numbered { (number : ℕ) → AreNumbered number others.old.items
        → AreNumbered number others.new.items }
{
    let rest = others.as_mut_slice();
    let (failed, ()) = join_mut(
        rt,
        &mut ||
            requires { IsReady desk.now pass.now
                × (1 ≤ settings.attempts)
                × (settings.attempts ≤ 64)
                × (1 ≤ settings.markers)
                × (settings.markers ≤ 64) }
            ensures serves { ServesOwn (ends_of L.In.left L.In.faults L.Out.held L.Out.faults)
                desk.entry.now settings.attempts (L.tells listener.entry.now)
                (L.waiting listener.entry.now) (L.waiting listener.exit.now)
                (L.returned listener.entry.now) (L.returned listener.exit.now) pass.entry.now
                (C.ahead clock.entry.now) pass.exit.now (C.ahead clock.exit.now) }
            ensures end { result ≡ false
                → IsTrue (L.tells listener.entry.now)
                → L.waiting listener.exit.now ≡ [] }
            ensures pass { IsReady desk.entry.now pass.exit.now
                × Keeps desk.entry.now pass.entry.now pass.exit.now }
            ensures counts { Counts result (L.faults listener.entry.now)
                (L.faults listener.exit.now) }
            ensures stands { Stands L.tells L.listens listener.entry.now listener.exit.now }
            ensures out { IsTrue (L.tells listener.entry.now)
                → L.out listener.exit.now ≡ L.out listener.entry.now }
            ensures others { TwinsStay L.rejoined L.twins L.dealt listener.entry.now listener.exit.now }
        { serve(rt, alloc, desk, pass, listener, clock, settings) },
        &mut ||
            requires { All (IsBack L.faults desk.now) rest.now
                × (1 ≤ settings.attempts)
                × (settings.attempts ≤ 64)
                × (1 ≤ settings.markers)
                × (settings.markers ≤ 64) }
            ensures len { length rest.exit.now ≡ length rest.entry.now }
            ensures done { (told : Bool) (ahead : Option Readings) (p : Pass)
                (dealt : List (List (L.In × L.Out)))
                → All (IsHired L.tells L.returned L.faults C.ahead told ahead desk.entry.now p)
                rest.entry.now
                → AreDealt L.waiting told dealt rest.entry.now
                → AreDone (ends_of L.In.left L.In.faults L.Out.held L.Out.faults) desk.entry.now
                settings.attempts L.waiting L.returned L.faults told ahead p dealt rest.exit.now }
            ensures numbered { (number : ℕ) → AreNumbered number rest.entry.now
                → AreNumbered number rest.exit.now }
        { serve_workers(rt, alloc, desk, rest, settings) },
    );
    failed
}

/// Takes all workers back, and says whether the listener of one failed.
fn dismiss<K0: Keeper, L: Listener, C: Drop>(
    desk: &Desk<Store<K0>>,
    pass: &mut Pass,
    listener: &mut L,
    mut others: Vec<Worker<L, C>>,
) -> bool
    requires ready { IsReady desk.now pass.old }
    requires others { All (IsBack L.faults desk.now) others.items }
    requires twins { IsTrue (L.tells listener.old) → vec_len others ≤ L.twins listener.old }
    ensures ready { IsReady desk.now pass.new }
    ensures kept { (number_of pass.new ≡ number_of pass.old)
        × (stands_for pass.new ≡ stands_for pass.old + vec_len others)
        × (spare_of pass.new ≡ spare_of pass.old) }
    ensures grows { GrowsTo pass.old pass.new }
    ensures taken { (number : ℕ) → HasNumber number pass.old → TakenIn number pass.old pass.new }
    ensures idle { (p : Pass) → Remembers p pass.old
        → All (IsIdle p) others.items
        → Remembers p pass.new × (result ≡ false) }
    ensures unserved { (dealt : List (List (L.In × L.Out)))
        → All (HasNone L.returned) others.items
        → AreDealt L.waiting (L.tells listener.old) dealt others.items
        → IsTrue (L.tells listener.old)
        → ComesBack dealt (drop (vec_len others) dealt) (L.rejoined listener.old)
        (L.rejoined listener.new) }
    ensures back { (attempts number : ℕ) (ahead : Option Readings) (p : Pass)
        (dealt : List (List (L.In × L.Out)))
        → AreDone (ends_of L.In.left L.In.faults L.Out.held L.Out.faults) desk.now attempts
        L.waiting L.returned L.faults (L.tells listener.old) ahead p dealt others.items
        → AreNumbered number others.items
        → AreBack (ends_of L.In.left L.In.faults L.Out.held L.Out.faults) desk.now attempts
        (L.tells listener.old) result (L.rejoined listener.old) (L.rejoined listener.new) dealt 0
        (vec_len others) number p ahead pass.new }
    ensures counts { Counts result (L.faults listener.old) (L.faults listener.new) }
    ensures stands { Stands L.tells L.listens listener.old listener.new }
    ensures own { OwnStay L.waiting L.returned L.out listener.old listener.new }
    ensures twins { IsTrue (L.tells listener.old)
        → L.twins listener.new + vec_len others ≡ L.twins listener.old }
    ensures dealt { L.dealt listener.new ≡ L.dealt listener.old }
{
    let mut failed = false;
    while let Some(worker) = others.pop() {
        failed |= take_back(desk, pass, listener, worker);
    }
    others.destroy_empty();
    failed
}

/// Takes a worker back, and says whether its listener failed.
fn take_back<K0: Keeper, L: Listener, C: Drop>(
    desk: &Desk<Store<K0>>,
    pass: &mut Pass,
    listener: &mut L,
    worker: Worker<L, C>,
) -> bool
    requires ready { IsReady desk.now pass.old × IsReady desk.now worker.pass }
    ensures ready { IsReady desk.now pass.new }
    ensures kept { (number_of pass.new ≡ number_of pass.old)
        × (stands_for pass.new ≡ stands_for pass.old + stands_for worker.pass)
        × (spare_of pass.new ≡ max (spare_of pass.old) (spare_of worker.pass)) }
    ensures grows { GrowsTo pass.old pass.new × GrowsTo worker.pass pass.new }
    ensures carries { CarriesOn pass.old pass.new × CarriesOn worker.pass pass.new }
    ensures remembers { (p : Pass) → Remembers p pass.old
        → Remembers p worker.pass
        → Remembers p pass.new }
    ensures failed { result ≡ worker.failed }
    ensures counts { Counts worker.failed 0 (L.faults worker.listener)
        → Counts result (L.faults listener.old) (L.faults listener.new) }
    ensures stands { Stands L.tells L.listens listener.old listener.new }
    ensures own { OwnStay L.waiting L.returned L.out listener.old listener.new }
    ensures rejoined { TakesBack (L.tells listener.old) (L.twins listener.old)
        (L.rejoined listener.old) (L.rejoined listener.new)
        (L.returned worker.listener ++ L.waiting worker.listener) }
    ensures twins { IsTrue (L.tells listener.old)
        → L.twins listener.new ≡ L.twins listener.old - 1 }
    ensures dealt { L.dealt listener.new ≡ L.dealt listener.old }
{
    let Worker {
        listener: twin,
        pass: other,
        clock: _,
        failed,
    } = worker;
    listener.rejoin(twin);
    desk.join(pass, other);
    failed
}
