//! A session on the catalogue of a journal.

ghost use Rattle.std.specs.Prelude.{ℕ, List, ◌≡◌, ◌≢◌, IfErr, IfOk, IsTrue, None, Some};
ghost use Rattle.cat_io.specs.Causes.{Rose};
ghost use Rattle.cat_io.specs.Places.{OthersStay};
ghost use Rattle.cat_keeper.specs.Bases.{bases_in, first_of};
ghost use Rattle.cat_cli.specs.Journals.{DisksFell, IsBack, RoseBy, StandsFor, told_at};
ghost use Rattle.cat_cli.specs.Opening.{IsReason, status_of};
ghost use Rattle.cat_cli.specs.Runs.{CountedBy, RanKnown, SaysKnown, spares_disks, tells_all};
ghost use Rattle.cat_cli.specs.Stores.{RunsKnown};
ghost use Rattle.cat_cli.specs.Surviving.{IsBegun, IsStoodOn, Spared, Unspoiled, Unwritten, images_at, images_of};
ghost use Rattle.cat_model.specs.Drafts.{nothing_open};

use crate::journal::{disk_of, store_on};
use crate::status::Status;
use crate::still::Stood;
use crate::unopened::{Unopened, refuse};
use cat_codes::fault::NoMemory;
use cat_core::Store;
use cat_desk::NoGate;
use cat_io::{Clock, Disk, Disks, Sink, Source};
use cat_keeper::{Keeper, Since};
use cat_serve::{Session, Settings, serve_connection};
use cat_work::{hold, release};
use std::alloc::Global;
use std::marker::{Brand, Send};
use std::sync::Wait;
use std::thread::Threads;

/// How often a call is tried on a branch that others move.
const ATTEMPTS: u32 = 8;

/// How many workers mark what a collection keeps.
pub(crate) const MARKERS: u32 = 2;

// The status after a session, by whether the disk failed.
fn status_of(end: Session, failed: bool) -> Status
    ensures { result ≡ status_of end failed }
{
    match end {
        Session::NoMemory => Status::NoMemory,
        Session::WriteFault => Status::WriteFault,
        Session::ReadFault => Status::ReadFault,
        _ if failed => Status::DiskFault,
        Session::Closed => Status::Done,
        _ => Status::Cut,
    }
}

// A session on a store, through a desk with one pass, after which the store comes back. Its keeper's
// count of faults is as it was opened, or where an append failed, the one at which it is down. Where
// memory runs out before the session begins, the store comes back as it was.
fn hold_session<R: Threads + Wait + Sync, K0: Keeper, S: Source, K: Sink, C: Clock>(
    rt: &R,
    alloc: Global,
    store: Store<K0>,
    source: &mut S,
    sink: &mut K,
    clock: &mut C,
) -> Result<(Store<K0>, Session), (Store<K0>, NoMemory)>
    requires closed { store.left_open ≡ nothing_open }
    requires up { store.mark.fault ≡ None }
    ensures ends { IfOk result
        (λ t. RunsKnown K0.down K0.in_flight store (C.ahead clock.old) (S.left source.old)
        (S.left source.new) (K.held sink.old) t.1 t.0 (C.ahead clock.new) (K.held sink.new)) }
    ensures bases { IfOk result (λ t. t.0.mark.bases ≡ bases_in (K0.told t.0.keeper)) }
    ensures based { IfOk result
        (λ t. (ps : List (List ℕ)) → K0.told t.0.keeper ≡ Some ps → first_of ps ≡ t.0.mark.base) }
    ensures level { IfOk result
        (λ t. K0.down t.0.keeper ≡ None → K0.faults t.0.keeper ≡ store.opened.faults) }
    ensures rose { IfOk result
        (λ t. (c : ℕ) → K0.down t.0.keeper ≡ Some c
        → Rose store.opened.faults c × (c ≡ K0.faults t.0.keeper)) }
    ensures read { IfOk result
        (λ t. t.1 ≡ Session.ReadFault → Rose (S.faults source.old) (S.faults source.new)) }
    ensures write { IfOk result
        (λ t. t.1 ≡ Session.WriteFault → Rose (K.faults sink.old) (K.faults sink.new)) }
    ensures source_stays { IfOk result
        (λ t. t.1 ≢ Session.ReadFault → S.faults source.new ≡ S.faults source.old) }
    ensures sink_stays { IfOk result
        (λ t. t.1 ≢ Session.WriteFault → K.faults sink.new ≡ K.faults sink.old) }
    ensures back { IfErr result (λ e. e.0 ≡ store) }
    ensures untold { IfErr result (λ _. sink.new ≡ sink.old) }
    ensures unread { IfErr result (λ _. (source.new ≡ source.old) × (clock.new ≡ clock.old)) }
{
    match hold(alloc, store) {
        Ok((desk, mut pass)) => {
            let mut gate = NoGate {};
            let settings = Settings {
                attempts: ATTEMPTS,
                markers: MARKERS,
            };
            let end = serve_connection(
                rt, alloc, &desk, &mut pass, source, sink, clock, &mut gate, settings,
            );
            let store = release(desk, pass);
            store.log_is_kept();
            Ok((store, end))
        }
        Err((store, fault)) => Err((store, fault)),
    }
}

// A session on the catalogue of the journal of a disk, and how it ended; or why none was held. The
// disk comes back. It is watched what a crash might have left of it since it was given here.
fn session_on<
    B: Since + Send,
    T: Stood + Send,
    R: Threads + Wait + Sync,
    D: Disk + Send,
    S: Source,
    K: Sink,
    C: Clock,
>(
    rt: &R,
    alloc: Global,
    disk: D,
    source: &mut S,
    sink: &mut K,
    clock: &mut C,
) -> (D, Result<Session, Unopened>)
    requires begun { IsBegun B.since B.had B.before (D.told disk) (D.moment disk)
        (D.may_leave disk) }
    requires stood { IsStoodOn T.since T.count T.past T.began T.shape (D.told disk)
        (D.moment disk) (D.may_leave disk) (D.left_since disk) }
    requires fresh { D.faults disk ≡ 0 }
    ensures ran { IfOk result.1
        (λ end. RanKnown (CountedBy (D.faults result.0)) (D.faults result.0 ≡ 0)
        (C.ahead clock.old) (C.ahead clock.new)
        (S.left source.old) (S.left source.new) (K.held sink.old) (K.held sink.new)
        (K.faults sink.old) (K.faults sink.new) (D.told disk) (D.told result.0)
        (images_of D.may_leave D.moment D.left_since disk result.0) end) }
    ensures read { IfOk result.1
        (λ end. end ≡ Session.ReadFault → Rose (S.faults source.old) (S.faults source.new)) }
    ensures write { IfOk result.1
        (λ end. end ≡ Session.WriteFault → Rose (K.faults sink.old) (K.faults sink.new)) }
    ensures source_stays { IfOk result.1
        (λ end. end ≢ Session.ReadFault → S.faults source.new ≡ S.faults source.old) }
    ensures sink_stays { IfOk result.1
        (λ end. end ≢ Session.WriteFault → K.faults sink.new ≡ K.faults sink.old) }
    ensures reason { IfErr result.1 (λ why. IsReason (D.told disk) why) }
    ensures stands { IfErr result.1 (λ _. StandsFor (D.told disk) (D.told result.0)) }
    ensures spared { IfErr result.1
        (λ _. Spared (D.told disk) (D.told result.0)
        (images_of D.may_leave D.moment D.left_since disk result.0)) }
    ensures unspoiled { IfErr result.1
        (λ why. why ≢ Unopened.Fault → Unspoiled (D.told disk) (D.told result.0)
        (images_of D.may_leave D.moment D.left_since disk result.0)) }
    ensures unwritten { IfErr result.1
        (λ _. Unwritten (D.told disk) (D.told result.0)
        (images_of D.may_leave D.moment D.left_since disk result.0)) }
    ensures cause { IfErr result.1 (λ why. why ≡ Unopened.Fault → Rose 0 (D.faults result.0)) }
    ensures level { IfErr result.1 (λ why. why ≢ Unopened.Fault → D.faults result.0 ≡ 0) }
    ensures untold { IfErr result.1 (λ _. sink.new ≡ sink.old) }
    ensures unread { IfErr result.1 (λ _. (source.new ≡ source.old) × (clock.new ≡ clock.old)) }
{
    match store_on::<B, T, D>(alloc, disk) {
        Ok(store) => match hold_session(rt, alloc, store, source, sink, clock) {
            Ok((store, end)) => (disk_of(store), Ok(end)),
            Err((store, _)) => (disk_of(store), Err(Unopened::NoMemory)),
        },
        Err((disk, why)) => (disk, Err(why)),
    }
}

/// One session, on the catalogue of the journal.
#[allow(clippy::too_many_arguments)]
pub(crate) fn script<R: Threads + Wait + Sync, O: Disks, S: Source, K: Sink, C: Clock>(
    rt: &R,
    alloc: Global,
    path: &str,
    disks: &mut O,
    source: &mut S,
    sink: &mut K,
    clock: &mut C,
) -> Status
    ensures replies { SaysKnown
        (DisksFell (O.refuses disks.old path.now) O.D.faults (O.at_path disks.new path.now)
        (O.faults disks.old) (O.faults disks.new))
        (RoseBy (O.faults disks.old) (O.faults disks.new))
        (O.faults disks.new ≡ O.faults disks.old)
        ((source.new ≡ source.old) × (clock.new ≡ clock.old)) (C.ahead clock.old)
        (C.ahead clock.new) (S.left source.old) (S.left source.new) (K.held sink.old) result (K.held sink.new)
        (K.faults sink.old) (K.faults sink.new) (told_at O.D.told (O.at_path disks.old path.now))
        (told_at O.D.told (O.at_path disks.new path.now))
        (images_at O.D.may_leave O.D.moment O.D.left_since (O.at_path disks.old path.now)
        (O.at_path disks.new path.now)) }
    ensures taken { result ≢ Status.Usage }
    ensures unheard { result ≢ Status.ListenerFault }
    ensures read { result ≡ Status.ReadFault → Rose (S.faults source.old) (S.faults source.new) }
    ensures write { result ≡ Status.WriteFault → Rose (K.faults sink.old) (K.faults sink.new) }
    ensures source_stays { result ≢ Status.ReadFault → S.faults source.new ≡ S.faults source.old }
    ensures sink_stays { IsTrue (tells_all result) → K.faults sink.new ≡ K.faults sink.old }
    ensures disks_stay { IsTrue (spares_disks result) → O.faults disks.new ≡ O.faults disks.old }
    ensures disk { result ≡ Status.DiskFault
        → DisksFell (O.refuses disks.old path.now) O.D.faults (O.at_path disks.new path.now)
        (O.faults disks.old) (O.faults disks.new) }
    ensures back { IsBack (O.at_path disks.old path.now) (O.at_path disks.new path.now) }
    ensures others { OthersStay path.now (O.at_path disks.old) (O.at_path disks.new) }
{
    let Ok(disk) = disks.open(path) else {
        return refuse(alloc, Unopened::Fault, sink);
    };
    let (disk, held) = session_on::<Brand, Brand, R, O::D, S, K, C>(
        rt, alloc, disk, source, sink, clock,
    );
    let failed = disk.fault_count() > 0;
    disks.back(path, disk);
    match held {
        Ok(end) => status_of(end, failed),
        Err(why) => refuse(alloc, why, sink),
    }
}
