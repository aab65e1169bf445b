//! Workers: each serves one connection after another.

ghost use Rattle.std.specs.Prelude.{All, Bool, IsTrue, List, Option, [], false, length, ℕ, ◌≡◌, ◌≤◌};
ghost use Rattle.cat_desk.specs.Pass.{Keeps, number_of};
ghost use Rattle.cat_io.specs.Listening.{Stands, TwinsStay};
ghost use Rattle.cat_work.specs.Passes.{IsReady};
ghost use Rattle.cat_serve.specs.Hiring.{AreDealt, AreDone, AreNumbered, Counts, IsBack, IsDone, IsHired, ServesOwn};
ghost use Rattle.cat_serve.specs.Sessions.{Readings};
ghost use Rattle.cat_serve.specs.Workers.{ends_of};

use crate::session::serve_connection;
use crate::settings::Settings;
use cat_core::Store;
use cat_desk::{Desk, NoGate, Pass};
use cat_io::{Clock, Listener};
use cat_keeper::Keeper;
use std::alloc::Global;
use std::sync::Wait;
use std::thread::{Threads, for_each_mut};

/// At most so many workers are twins', each in a thread of its own.
const MOST: usize = 64;

/// What one worker has for itself, and whether its listener failed.
pub(crate) struct Worker<L, C> {
    pub(crate) listener: L,
    pub(crate) pass: Pass,
    pub(crate) clock: C,
    pub(crate) failed: bool,
}

/// Serves one connection after another until there is none, and says whether the listener failed.
pub(crate) fn serve<R: Wait + Threads + Sync, K0: Keeper, L: Listener, C: Clock>(
    rt: &R,
    alloc: Global,
    desk: &Desk<Store<K0>>,
    pass: &mut Pass,
    listener: &mut L,
    clock: &mut C,
    settings: Settings,
) -> bool
    requires ready { IsReady desk.now pass.old }
    requires attempts { (1 ≤ settings.attempts) × (settings.attempts ≤ 64) }
    requires markers { (1 ≤ settings.markers) × (settings.markers ≤ 64) }
    ensures serves { ServesOwn (ends_of L.In.left L.In.faults L.Out.held L.Out.faults) desk.now
        settings.attempts (L.tells listener.old) (L.waiting listener.old) (L.waiting listener.new)
        (L.returned listener.old) (L.returned listener.new) pass.old (C.ahead clock.old) pass.new
        (C.ahead clock.new) }
    ensures end { result ≡ false → IsTrue (L.tells listener.old) → L.waiting listener.new ≡ [] }
    ensures ready { IsReady desk.now pass.new }
    ensures kept { Keeps desk.now pass.old pass.new }
    ensures counts { Counts result (L.faults listener.old) (L.faults listener.new) }
    ensures stands { Stands L.tells L.listens listener.old listener.new }
    ensures out { IsTrue (L.tells listener.old) → L.out listener.new ≡ L.out listener.old }
    ensures others { TwinsStay L.rejoined L.twins L.dealt listener.old listener.new }
{
    'connections: for _ in rt.forever() {
        match listener.accept() {
            Ok(Some((mut input, mut output))) => {
                let _ = serve_connection(
                    rt,
                    alloc,
                    desk,
                    pass,
                    &mut input,
                    &mut output,
                    clock,
                    &mut NoGate {},
                    settings,
                );
                listener.back(input, output);
            }
            Ok(None) => return false,
            Err(_) => return true,
        }
    }
    unreachable!()
}

/// Each worker serves in a thread of its own.
pub(crate) fn serve_workers<R: Threads + Wait + Sync, K0: Keeper, L: Listener, C: Clock>(
    rt: &R,
    alloc: Global,
    desk: &Desk<Store<K0>>,
    workers: &mut [Worker<L, C>],
    settings: Settings,
)
    requires workers { All (IsBack L.faults desk.now) workers.old }
    requires attempts { (1 ≤ settings.attempts) × (settings.attempts ≤ 64) }
    requires markers { (1 ≤ settings.markers) × (settings.markers ≤ 64) }
    ensures len { length workers.new ≡ length workers.old }
    ensures done { (told : Bool) (ahead : Option Readings) (p : Pass)
        (dealt : List (List (L.In × L.Out)))
        → All (IsHired L.tells L.returned L.faults C.ahead told ahead desk.now p) workers.old
        → AreDealt L.waiting told dealt workers.old
        → AreDone (ends_of L.In.left L.In.faults L.Out.held L.Out.faults) desk.now
        settings.attempts L.waiting L.returned L.faults told ahead p dealt workers.new }
    ensures numbered { (number : ℕ) → AreNumbered number workers.old
        → AreNumbered number workers.new }
{
    for_each_mut(
        rt,
        workers,
        MOST,
        &|_, worker: &mut Worker<L, C>|
            requires { IsReady desk.now worker.old.pass
                × (1 ≤ settings.attempts)
                × (settings.attempts ≤ 64)
                × (1 ≤ settings.markers)
                × (settings.markers ≤ 64) }
            ensures done { (told : Bool) (ahead : Option Readings) (p : Pass)
                (dealt : List (L.In × L.Out))
                → IsHired L.tells L.returned L.faults C.ahead told ahead desk.entry.now p worker.old
                → (IsTrue told → L.waiting worker.old.listener ≡ dealt)
                → IsDone (ends_of L.In.left L.In.faults L.Out.held L.Out.faults) desk.entry.now
                settings.attempts L.waiting L.returned L.faults told ahead p dealt worker.new }
            ensures number { number_of worker.new.pass ≡ number_of worker.old.pass }
        {
            worker.failed = serve(
                rt,
                alloc,
                desk,
                &mut worker.pass,
                &mut worker.listener,
                &mut worker.clock,
                settings,
            );
        },
    );
}
