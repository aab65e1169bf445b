//! Workers on the catalogue of a journal, who serve the connections of a listener.

ghost use Rattle.std.specs.Prelude.{◌≡◌, ◌≢◌, Bool, IfErr, IfOk, IsTrue, Some};
ghost use Rattle.std.specs.Option.{option_map};
ghost use Rattle.cat_io.specs.Causes.{Rose};
ghost use Rattle.cat_io.specs.Places.{OthersStay};
ghost use Rattle.cat_core.specs.Stored.{faults_at};
ghost use Rattle.cat_keeper.specs.Bases.{bases_in};
ghost use Rattle.cat_desk.specs.Pass.{Remembers, spare_of};
ghost use Rattle.cat_model.specs.Drafts.{nothing_open};
ghost use Rattle.cat_model.specs.Mark.{FailedAppend};
ghost use Rattle.cat_serve.specs.Workers.{ends_of};
ghost use Rattle.cat_words.specs.Asked.{IsFew};
ghost use Rattle.cat_work.specs.Passes.{IsAlone, IsReady};
ghost use Rattle.cat_cli.specs.Hosting.{Comes, CountStays, Hosts, IsAsBefore, WorksOn, heard_of, service_of};
ghost use Rattle.cat_cli.specs.Journals.{DisksFell, IsBack, RoseBy, StandsFor, told_at};
ghost use Rattle.cat_cli.specs.Opening.{IsReason};
ghost use Rattle.cat_cli.specs.Runs.{CountedBy, spares_disks, spares_listener, tells_all};
ghost use Rattle.cat_cli.specs.Serving.{Hosted, OpenedOnly, ServesKnown, IsToldOf, status_after};
ghost use Rattle.cat_cli.specs.Surviving.{IsBegun, IsStoodOn, Spared, Unspoiled, Unwritten, images_at, images_of};

use crate::journal::{disk_of, store_on};
use crate::scripting::MARKERS;
use crate::status::Status;
use crate::still::Stood;
use crate::telling::{tell_listener_fault, tell_no_memory};
use crate::unopened::{Unopened, refuse};
use cat_codes::fault::NoMemory;
use cat_core::Store;
use cat_desk::{Desk, Pass};
use cat_io::{Clock, Disk, Disks, Listener, Sink};
use cat_keeper::{Keeper, Since};
use cat_serve::{Served, Settings, serve_all};
use cat_work::{hold, release};
use std::alloc::Global;
use std::marker::{Brand, Send};
use std::sync::Wait;
use std::thread::Threads;

/// Where connections are served, and how.
#[derive(Clone, Copy)]
pub(crate) struct ServeOptions<'a> {
    /// The address to listen at.
    pub(crate) address: &'a str,
    /// How many connections are served; 0 sets no end.
    pub(crate) connections: u64,
    /// How many workers serve them, 1 to 64.
    pub(crate) workers: u32,
    /// How often a call is tried on a branch that others move, 1 to 64 times.
    pub(crate) attempts: u32,
}

// Listens, and serves the connections on passes of a desk.
fn serve_at<R: Threads + Wait + Sync, K0: Keeper, L: Listener, C: Clock + Drop>(
    rt: &R,
    alloc: Global,
    desk: &Desk<Store<K0>>,
    pass: &mut Pass,
    options: ServeOptions<'_>,
    listener: &mut L,
    clock: &mut C,
) -> Served
    requires ready { IsReady desk.now pass.old }
    requires alone { IsAlone pass.old }
    requires spare { spare_of pass.old ≡ 4294967294 }
    requires few { IsFew options.workers × IsFew options.attempts }
    ensures comes { Comes
        (WorksOn (ends_of L.In.left L.In.faults L.Out.held L.Out.faults)
        (service_of options.entry)
        (heard_of L.tells L.listens L.waiting L.returned L.rejoined L.out L.twins L.dealt L.faults
        listener.old)
        (heard_of L.tells L.listens L.waiting L.returned L.rejoined L.out L.twins L.dealt L.faults
        listener.new) desk.now pass.old (C.ahead clock.old) pass.new (C.ahead clock.new))
        (Remembers pass.old pass.new × (clock.new ≡ clock.old)) (service_of options.entry)
        (heard_of L.tells L.listens L.waiting L.returned L.rejoined L.out L.twins L.dealt L.faults
        listener.old)
        (heard_of L.tells L.listens L.waiting L.returned L.rejoined L.out L.twins L.dealt L.faults
        listener.new) result }
    ensures ready { IsReady desk.now pass.new }
    ensures alone { IsAlone pass.new }
    ensures cause { result ≡ Served.ListenerFault
        → Rose (L.faults listener.old) (L.faults listener.new) }
    ensures stays { result ≢ Served.ListenerFault
        → CountStays (L.faults listener.old) (L.faults listener.new) }
{
    let settings = Settings {
        attempts: options.attempts,
        markers: MARKERS,
    };
    match listener.listen(options.address, options.connections) {
        Ok(()) => serve_all(
            rt,
            alloc,
            desk,
            pass,
            listener,
            clock,
            options.workers,
            settings,
        ),
        Err(_) => Served::ListenerFault,
    }
}

// Serves on a store, through a desk, after which the store comes back. Its keeper's count of faults
// is as it was opened, or where an append failed, the one that the mark tells of. Where no desk can
// be made the store comes back as it was.
fn hold_serving<R: Threads + Wait + Sync, K0: Keeper, L: Listener, C: Clock + Drop>(
    rt: &R,
    alloc: Global,
    store: Store<K0>,
    options: ServeOptions<'_>,
    listener: &mut L,
    clock: &mut C,
) -> Result<(Store<K0>, Served), (Store<K0>, NoMemory)>
    requires closed { store.left_open ≡ nothing_open }
    requires few { IsFew options.workers × IsFew options.attempts }
    ensures comes { IfOk result
        (λ t. Comes
        (Hosts (ends_of L.In.left L.In.faults L.Out.held L.Out.faults) (service_of options.entry)
        (heard_of L.tells L.listens L.waiting L.returned L.rejoined L.out L.twins L.dealt L.faults
        listener.old)
        (heard_of L.tells L.listens L.waiting L.returned L.rejoined L.out L.twins L.dealt L.faults
        listener.new) (C.ahead clock.old) (C.ahead clock.new) store t.0)
        (IsAsBefore store t.0 × (clock.new ≡ clock.old))
        (service_of options.entry)
        (heard_of L.tells L.listens L.waiting L.returned L.rejoined L.out L.twins L.dealt L.faults
        listener.old)
        (heard_of L.tells L.listens L.waiting L.returned L.rejoined L.out L.twins L.dealt L.faults
        listener.new) t.1) }
    ensures fallen { IfOk result
        (λ t. K0.down t.0.keeper ≡ option_map (λ (x : FailedAppend). x.count) t.0.mark.fault) }
    ensures flies { IfOk result
        (λ t. K0.in_flight t.0.keeper
        ≡ option_map (λ (x : FailedAppend). x.payload) t.0.mark.fault) }
    ensures bases { IfOk result (λ t. t.0.mark.bases ≡ bases_in (K0.told t.0.keeper)) }
    ensures level { IfOk result
        (λ t. K0.faults t.0.keeper ≡ faults_at store.opened.faults t.0.mark.fault) }
    ensures rose { IfOk result
        (λ t. (x : FailedAppend) → t.0.mark.fault ≡ Some x
        → Rose store.opened.faults x.count) }
    ensures cause { IfOk result
        (λ t. t.1 ≡ Served.ListenerFault → Rose (L.faults listener.old) (L.faults listener.new)) }
    ensures stays { IfOk result
        (λ t. t.1 ≢ Served.ListenerFault
        → CountStays (L.faults listener.old) (L.faults listener.new)) }
    ensures back { IfErr result (λ e. e.0 ≡ store) }
    ensures untouched { IfErr result
        (λ _. (listener.new ≡ listener.old) × (clock.new ≡ clock.old)) }
{
    match hold(alloc, store) {
        Ok((desk, mut pass)) => {
            let end = serve_at(rt, alloc, &desk, &mut pass, options, listener, clock);
            let store = release(desk, pass);
            store.log_is_kept();
            Ok((store, end))
        }
        Err((store, fault)) => Err((store, fault)),
    }
}

// Serves on the catalogue of the journal of a disk, and says how that ended; or why there is none.
// The disk comes back. It is watched what a crash might have left of it since it was given here.
fn serve_on<
    B: Since + Send,
    T: Stood + Send,
    R: Threads + Wait + Sync,
    D: Disk + Send,
    L: Listener,
    C: Clock + Drop,
>(
    rt: &R,
    alloc: Global,
    disk: D,
    options: ServeOptions<'_>,
    listener: &mut L,
    clock: &mut C,
) -> (D, Result<Served, Unopened>)
    requires begun { IsBegun B.since B.had B.before (D.told disk) (D.moment disk)
        (D.may_leave disk) }
    requires stood { IsStoodOn T.since T.count T.past T.began T.shape (D.told disk)
        (D.moment disk) (D.may_leave disk) (D.left_since disk) }
    requires fresh { D.faults disk ≡ 0 }
    requires few { IsFew options.workers × IsFew options.attempts }
    ensures comes { IfOk result.1
        (λ end. Comes
        (Hosted (ends_of L.In.left L.In.faults L.Out.held L.Out.faults)
        (CountedBy (D.faults result.0)) (D.faults result.0 ≡ 0) (service_of options.entry)
        (heard_of L.tells L.listens L.waiting L.returned L.rejoined L.out L.twins L.dealt L.faults
        listener.old)
        (heard_of L.tells L.listens L.waiting L.returned L.rejoined L.out L.twins L.dealt L.faults
        listener.new) (C.ahead clock.old) (C.ahead clock.new) (D.told disk) (D.told result.0)
        (images_of D.may_leave D.moment D.left_since disk result.0))
        (OpenedOnly (clock.new ≡ clock.old) (D.faults result.0 ≡ 0) (D.told disk) (D.told result.0)
        (images_of D.may_leave D.moment D.left_since disk result.0)) (service_of options.entry)
        (heard_of L.tells L.listens L.waiting L.returned L.rejoined L.out L.twins L.dealt L.faults
        listener.old)
        (heard_of L.tells L.listens L.waiting L.returned L.rejoined L.out L.twins L.dealt L.faults
        listener.new) end) }
    ensures listener_cause { IfOk result.1
        (λ end. end ≡ Served.ListenerFault → Rose (L.faults listener.old) (L.faults listener.new)) }
    ensures listener_stays { IfOk result.1
        (λ end. end ≢ Served.ListenerFault
        → CountStays (L.faults listener.old) (L.faults listener.new)) }
    ensures reason { IfErr result.1 (λ why. IsReason (D.told disk) why) }
    ensures stands { IfErr result.1 (λ _. StandsFor (D.told disk) (D.told result.0)) }
    ensures spared { IfErr result.1
        (λ _. Spared (D.told disk) (D.told result.0)
        (images_of D.may_leave D.moment D.left_since disk result.0)) }
    ensures unspoiled { IfErr result.1
        (λ why. why ≢ Unopened.Fault → Unspoiled (D.told disk) (D.told result.0)
        (images_of D.may_leave D.moment D.left_since disk result.0)) }
    ensures unwritten { IfErr result.1
        (λ _. Unwritten (D.told disk) (D.told result.0)
        (images_of D.may_leave D.moment D.left_since disk result.0)) }
    ensures cause { IfErr result.1 (λ why. why ≡ Unopened.Fault → Rose 0 (D.faults result.0)) }
    ensures level { IfErr result.1 (λ why. why ≢ Unopened.Fault → D.faults result.0 ≡ 0) }
    ensures untouched { IfErr result.1
        (λ _. (listener.new ≡ listener.old) × (clock.new ≡ clock.old)) }
{
    match store_on::<B, T, D>(alloc, disk) {
        Ok(store) => match hold_serving(rt, alloc, store, options, listener, clock) {
            Ok((store, end)) => (disk_of(store), Ok(end)),
            Err((store, _)) => (disk_of(store), Err(Unopened::NoMemory)),
        },
        Err((disk, why)) => (disk, Err(why)),
    }
}

// The status after serving, by whether the disk failed. A fault of the listener is told, and want
// of memory.
fn tell_end<K: Sink>(end: Served, failed: bool, sink: &mut K) -> Status
    ensures told { (wrote : Bool) × (result ≡ status_after end failed wrote)
        × IsToldOf end wrote
        (record {
          held = K.held sink.old;
          after = K.held sink.new;
          before = K.faults sink.old;
          now = K.faults sink.new;
        }) }
    ensures write { result ≡ Status.WriteFault → Rose (K.faults sink.old) (K.faults sink.new) }
    ensures stays { IsTrue (tells_all result) → K.faults sink.new ≡ K.faults sink.old }
    ensures taken { result ≢ Status.Usage }
    ensures unread { result ≢ Status.ReadFault }
{
    match end {
        Served::End if failed => Status::DiskFault,
        Served::End => Status::Done,
        Served::ListenerFault => tell_listener_fault(failed, sink),
        Served::NoMemory => tell_no_memory(sink),
    }
}

/// Serves the connections of an address on the catalogue of the journal.
#[allow(clippy::too_many_arguments)]
pub(crate) fn serve<R: Threads + Wait + Sync, O: Disks, K: Sink, C: Clock + Drop, L: Listener>(
    rt: &R,
    alloc: Global,
    path: &str,
    options: ServeOptions<'_>,
    disks: &mut O,
    sink: &mut K,
    clock: &mut C,
    listener: &mut L,
) -> Status
    requires few { IsFew options.workers × IsFew options.attempts }
    ensures served { ServesKnown (ends_of L.In.left L.In.faults L.Out.held L.Out.faults)
        (DisksFell (O.refuses disks.old path.now) O.D.faults (O.at_path disks.new path.now)
        (O.faults disks.old) (O.faults disks.new))
        (RoseBy (O.faults disks.old) (O.faults disks.new))
        (O.faults disks.new ≡ O.faults disks.old)
        ((listener.new ≡ listener.old) × (clock.new ≡ clock.old)) (clock.new ≡ clock.old)
        (service_of options.entry)
        (heard_of L.tells L.listens L.waiting L.returned L.rejoined L.out L.twins L.dealt L.faults
        listener.old)
        (heard_of L.tells L.listens L.waiting L.returned L.rejoined L.out L.twins L.dealt L.faults
        listener.new) (C.ahead clock.old) (C.ahead clock.new)
        (record {
          held = K.held sink.old;
          after = K.held sink.new;
          before = K.faults sink.old;
          now = K.faults sink.new;
        }) (told_at O.D.told (O.at_path disks.old path.now))
        (told_at O.D.told (O.at_path disks.new path.now))
        (images_at O.D.may_leave O.D.moment O.D.left_since (O.at_path disks.old path.now)
        (O.at_path disks.new path.now)) result }
    ensures taken { result ≢ Status.Usage }
    ensures unread { result ≢ Status.ReadFault }
    ensures write { result ≡ Status.WriteFault → Rose (K.faults sink.old) (K.faults sink.new) }
    ensures sink_stays { IsTrue (tells_all result) → K.faults sink.new ≡ K.faults sink.old }
    ensures disks_stay { IsTrue (spares_disks result) → O.faults disks.new ≡ O.faults disks.old }
    ensures disk { result ≡ Status.DiskFault
        → DisksFell (O.refuses disks.old path.now) O.D.faults (O.at_path disks.new path.now)
        (O.faults disks.old) (O.faults disks.new) }
    ensures listener_fault { result ≡ Status.ListenerFault
        → Rose (L.faults listener.old) (L.faults listener.new) }
    ensures listener_stays { IsTrue (spares_listener result)
        → CountStays (L.faults listener.old) (L.faults listener.new) }
    ensures back { IsBack (O.at_path disks.old path.now) (O.at_path disks.new path.now) }
    ensures others { OthersStay path.now (O.at_path disks.old) (O.at_path disks.new) }
{
    let Ok(disk) = disks.open(path) else {
        return refuse(alloc, Unopened::Fault, sink);
    };
    let (disk, ended) = serve_on::<Brand, Brand, R, O::D, L, C>(
        rt, alloc, disk, options, listener, clock,
    );
    let failed = disk.fault_count() > 0;
    disks.back(path, disk);
    match ended {
        Ok(end) => tell_end(end, failed, sink),
        Err(why) => refuse(alloc, why, sink),
    }
}
