//! A collection on the catalogue of a journal.

ghost use Rattle.std.specs.Prelude.{◌≡◌, ◌≢◌, ◌⊎◌, IfErr, IfOk, IsTrue, List, MatchResult, None, Some, map, string_bytes, ℕ};
ghost use Rattle.std.specs.Option.{option_map};
ghost use Rattle.cat_io.specs.Causes.{Rose};
ghost use Rattle.cat_io.specs.Places.{OthersStay};
ghost use Rattle.cat_core.specs.Stored.{faults_at};
ghost use Rattle.cat_keeper.specs.Bases.{bases_in};
ghost use Rattle.cat_model.specs.Drafts.{nothing_open};
ghost use Rattle.cat_model.specs.Mark.{FailedAppend};
ghost use Rattle.cat_policy.specs.declared.policy.Policy.{Policy};
ghost use Rattle.cat_policy.specs.Policies.{HasCounts, HasFew, policy_of};
ghost use Rattle.cat_cli.specs.Collecting.{Collects, CollectsKnown, EndsIn, EndsWith, Gathers, IsAnswer, IsGathered, Means};
ghost use Rattle.cat_cli.specs.Journals.{DisksFell, IsBack, StandsFor, told_at};
ghost use Rattle.cat_cli.specs.Lines.{limit_line, no_memory_line, swept_line, usage_line};
ghost use Rattle.cat_cli.specs.Opening.{IsReason};
ghost use Rattle.cat_cli.specs.Runs.{TellsKnown, spares_disks, tells_all};
ghost use Rattle.cat_cli.specs.Surviving.{IsBegun, IsStoodOn, Spared, Unspoiled, Unwritten, images_at, images_of};

use crate::journal::{disk_of, store_on};
use crate::scripting::MARKERS;
use crate::status::Status;
use crate::still::Stood;
use crate::telling::{tell, tell_no_memory};
use crate::unopened::{Unopened, refuse};
use cat_codes::fault::NoMemory;
use cat_collect::collect;
use cat_core::Store;
use cat_desk::NoGate;
use cat_http::write_all;
use cat_io::{Clock, Disk, Disks, Sink};
use cat_json::fault::JsonFault;
use cat_keeper::{Keeper, Since};
use cat_model::refusal::{Refusal, Refused};
use cat_model::reply::{Reply, Told};
use cat_policy::Policy;
use cat_work::{hold, release};
use std::alloc::{AllocError, Global};
use std::marker::{Brand, Send};
use std::sync::Wait;
use std::thread::Threads;

/// What a collection came to.
#[derive(Clone, Copy, Drop)]
pub(crate) enum Collected {
    /// It kept so many contents and removed so many, and its entry stands at the place.
    Swept { kept: u64, removed: u64, place: u32 },
    /// The catalogue has no room for its entry.
    Limit(u64),
    /// The append of its entry failed.
    Fault,
    NoMemory,
}

// What an answer says that a collection came to: nobody else has a sweep open, and no append had
// failed before.
fn meaning(answer: &Result<Told, Refused>) -> Collected
    requires { IsAnswer answer.now }
    ensures { Means answer.now result }
{
    match answer {
        Ok(told) => match &told.reply {
            Reply::Swept(swept) => Collected::Swept {
                kept: swept.kept,
                removed: swept.removed,
                place: told.place,
            },
            _ => unreachable!(),
        },
        Err(refused) => match &refused.why {
            Refusal::Limit { number, .. } => Collected::Limit(*number),
            Refusal::Fault => Collected::Fault,
            Refusal::NoMemory => Collected::NoMemory,
            _ => unreachable!(),
        },
    }
}

// A collection on a store, through a desk with one pass, after which the store comes back. Its
// keeper's count of faults is as it was opened, or where an append failed, the one that the mark
// tells of. Where memory runs out before it begins, the store comes back as it was.
fn hold_collection<R: Threads + Wait + Sync, K0: Keeper, C: Clock>(
    rt: &R,
    alloc: Global,
    store: Store<K0>,
    policy: &Policy,
    clock: &mut C,
) -> Result<(Store<K0>, Collected), (Store<K0>, NoMemory)>
    requires closed { store.left_open ≡ nothing_open }
    requires up { store.mark.fault ≡ None }
    requires few { HasFew policy.now }
    requires counts { HasCounts policy.now }
    ensures gathered { IfOk result
        (λ t. IsGathered K0.in_flight policy.now (C.ahead clock.old) (C.ahead clock.new) store t.0
        t.1) }
    ensures bases { IfOk result (λ t. t.0.mark.bases ≡ bases_in (K0.told t.0.keeper)) }
    ensures flies { IfOk result
        (λ t. K0.in_flight t.0.keeper
        ≡ option_map (λ (x : FailedAppend). x.payload) t.0.mark.fault) }
    ensures level { IfOk result
        (λ t. K0.faults t.0.keeper ≡ faults_at store.opened.faults t.0.mark.fault) }
    ensures rose { IfOk result
        (λ t. (x : FailedAppend) → t.0.mark.fault ≡ Some x
        → Rose store.opened.faults x.count) }
    ensures back { IfErr result (λ e. e.0 ≡ store) }
    ensures paused { IfErr result (λ _. clock.new ≡ clock.old) }
{
    match hold(alloc, store) {
        Ok((desk, mut pass)) => {
            let mut gate = NoGate {};
            let answer = collect(
                rt, alloc, &desk, &mut pass, &mut gate, clock, policy, MARKERS,
            );
            let store = release(desk, pass);
            store.log_is_kept();
            Ok((store, meaning(&answer)))
        }
        Err((store, fault)) => Err((store, fault)),
    }
}

// A collection on the catalogue of the journal of a disk; or why none was made. The disk comes
// back. It is watched what a crash might have left of it since it was given here.
fn collection_on<
    B: Since + Send,
    T: Stood + Send,
    R: Threads + Wait + Sync,
    D: Disk + Send,
    C: Clock,
>(
    rt: &R,
    alloc: Global,
    disk: D,
    policy: &Policy,
    clock: &mut C,
) -> (D, Result<Collected, Unopened>)
    requires begun { IsBegun B.since B.had B.before (D.told disk) (D.moment disk)
        (D.may_leave disk) }
    requires stood { IsStoodOn T.since T.count T.past T.began T.shape (D.told disk)
        (D.moment disk) (D.may_leave disk) (D.left_since disk) }
    requires fresh { D.faults disk ≡ 0 }
    requires few { HasFew policy.now }
    requires counts { HasCounts policy.now }
    ensures collects { IfOk result.1
        (λ what. Collects policy.now (C.ahead clock.old) (C.ahead clock.new) (D.told disk)
        (D.told result.0) (images_of D.may_leave D.moment D.left_since disk result.0) what) }
    ensures rose { IfOk result.1 (λ what. what ≡ Collected.Fault → Rose 0 (D.faults result.0)) }
    ensures reason { IfErr result.1 (λ why. IsReason (D.told disk) why) }
    ensures stands { IfErr result.1 (λ _. StandsFor (D.told disk) (D.told result.0)) }
    ensures spared { IfErr result.1
        (λ _. Spared (D.told disk) (D.told result.0)
        (images_of D.may_leave D.moment D.left_since disk result.0)) }
    ensures unspoiled { IfErr result.1
        (λ why. why ≢ Unopened.Fault → Unspoiled (D.told disk) (D.told result.0)
        (images_of D.may_leave D.moment D.left_since disk result.0)) }
    ensures unwritten { IfErr result.1
        (λ _. Unwritten (D.told disk) (D.told result.0)
        (images_of D.may_leave D.moment D.left_since disk result.0)) }
    ensures cause { IfErr result.1 (λ why. why ≡ Unopened.Fault → Rose 0 (D.faults result.0)) }
    ensures level { MatchResult result.1 (λ what. what ≢ Collected.Fault → D.faults result.0 ≡ 0)
        (λ why. why ≢ Unopened.Fault → D.faults result.0 ≡ 0) }
    ensures paused { IfErr result.1 (λ _. clock.new ≡ clock.old) }
{
    match store_on::<B, T, D>(alloc, disk) {
        Ok(store) => match hold_collection(rt, alloc, store, policy, clock) {
            Ok((store, what)) => (disk_of(store), Ok(what)),
            Err((store, _)) => (disk_of(store), Err(Unopened::NoMemory)),
        },
        Err((disk, why)) => (disk, Err(why)),
    }
}

#[tactic(auto, unfolding(crate::specs::Lines::swept_line))]
fn swept_line(alloc: Global, kept: u64, removed: u64, place: u32) -> Result<String, AllocError>
    ensures { IfOk result (λ line. string_bytes line ≡ swept_line kept removed place) }
{
    format!(in alloc; "kept {kept} removed {removed} place {place}\n")
}

#[tactic(auto, unfolding(crate::specs::Lines::limit_line))]
fn limit_line(alloc: Global, number: u64) -> Result<String, AllocError>
    ensures { IfOk result (λ line. string_bytes line ≡ limit_line number) }
{
    format!(in alloc; "nessie: limit {number}\n")
}

// Tells a line, after which the run ends so.
fn end_with<K: Sink>(line: &[u8], status: Status, sink: &mut K) -> Status
    requires { IsTrue (tells_all status) }
    ensures told { EndsWith line.now status
        (record {
          held = K.held sink.old;
          after = K.held sink.new;
          before = K.faults sink.old;
          now = K.faults sink.new;
        }) result }
    ensures write { result ≡ Status.WriteFault → Rose (K.faults sink.old) (K.faults sink.new) }
    ensures stays { IsTrue (tells_all result) → K.faults sink.new ≡ K.faults sink.old }
{
    match write_all(sink, line) {
        Ok(()) => status,
        Err(_) => Status::WriteFault,
    }
}

// The same with a text, for which memory may be missing.
fn end_with_text<K: Sink>(text: Result<String, AllocError>, status: Status, sink: &mut K) -> Status
    requires { IsTrue (tells_all status) }
    ensures told { (line : List ℕ) → IfOk text (λ text. string_bytes text ≡ line)
        → EndsIn line status
        (record {
          held = K.held sink.old;
          after = K.held sink.new;
          before = K.faults sink.old;
          now = K.faults sink.new;
        }) result }
    ensures write { result ≡ Status.WriteFault → Rose (K.faults sink.old) (K.faults sink.new) }
    ensures stays { IsTrue (tells_all result) → K.faults sink.new ≡ K.faults sink.old }
{
    match text {
        Ok(text) => end_with(text.as_bytes(), status, sink),
        Err(_) => tell_no_memory(sink),
    }
}

// The status after a collection. Its line is told.
fn tell_collected<K: Sink>(alloc: Global, what: Collected, sink: &mut K) -> Status
    ensures told { Gathers (what ≡ Collected.Fault) (what ≢ Collected.Fault) (λ x. x ≡ what)
        (record {
          held = K.held sink.old;
          after = K.held sink.new;
          before = K.faults sink.old;
          now = K.faults sink.new;
        }) result }
    ensures write { result ≡ Status.WriteFault → Rose (K.faults sink.old) (K.faults sink.new) }
    ensures stays { IsTrue (tells_all result) → K.faults sink.new ≡ K.faults sink.old }
{
    match what {
        Collected::NoMemory => tell_no_memory(sink),
        Collected::Fault => end_with(b"nessie: disk fault\n", Status::DiskFault, sink),
        Collected::Limit(number) => end_with_text(limit_line(alloc, number), Status::Limit, sink),
        Collected::Swept {
            kept,
            removed,
            place,
        } => {
            let line = swept_line(alloc, kept, removed, place);
            end_with_text(line, Status::Done, sink)
        }
    }
}

// A collection under a policy on the catalogue of the journal.
fn collect_at<R: Threads + Wait + Sync, O: Disks, K: Sink, C: Clock>(
    rt: &R,
    alloc: Global,
    path: &str,
    policy: &Policy,
    disks: &mut O,
    sink: &mut K,
    clock: &mut C,
) -> Status
    requires few { HasFew policy.now }
    requires counts { HasCounts policy.now }
    ensures collects { CollectsKnown
        (DisksFell (O.refuses disks.old path.now) O.D.faults (O.at_path disks.new path.now)
        (O.faults disks.old) (O.faults disks.new)) (O.faults disks.new ≡ O.faults disks.old)
        (clock.new ≡ clock.old) policy.now (C.ahead clock.old) (C.ahead clock.new)
        (record {
          held = K.held sink.old;
          after = K.held sink.new;
          before = K.faults sink.old;
          now = K.faults sink.new;
        }) (told_at O.D.told (O.at_path disks.old path.now))
        (told_at O.D.told (O.at_path disks.new path.now))
        (images_at O.D.may_leave O.D.moment O.D.left_since (O.at_path disks.old path.now)
        (O.at_path disks.new path.now)) result }
    ensures write { result ≡ Status.WriteFault → Rose (K.faults sink.old) (K.faults sink.new) }
    ensures sink_stays { IsTrue (tells_all result) → K.faults sink.new ≡ K.faults sink.old }
    ensures disks_stay { IsTrue (spares_disks result) → O.faults disks.new ≡ O.faults disks.old }
    ensures disk { result ≡ Status.DiskFault
        → DisksFell (O.refuses disks.old path.now) O.D.faults (O.at_path disks.new path.now)
        (O.faults disks.old) (O.faults disks.new) }
    ensures back { IsBack (O.at_path disks.old path.now) (O.at_path disks.new path.now) }
    ensures others { OthersStay path.now (O.at_path disks.old) (O.at_path disks.new) }
{
    let Ok(disk) = disks.open(path) else {
        return refuse(alloc, Unopened::Fault, sink);
    };
    let (disk, done) = collection_on::<Brand, Brand, R, O::D, C>(rt, alloc, disk, policy, clock);
    disks.back(path, disk);
    match done {
        Ok(what) => tell_collected(alloc, what, sink),
        Err(why) => refuse(alloc, why, sink),
    }
}

/// One collection on the catalogue of the journal, under the policy of a default cutoff and any
/// number of `PATTERN=CUTOFF`; where they aren't one, no disk is opened. The line tells how many
/// contents are kept, how many are removed, and the place of the entry.
#[allow(clippy::too_many_arguments)]
pub(crate) fn gc<R: Threads + Wait + Sync, O: Disks, K: Sink, C: Clock>(
    rt: &R,
    alloc: Global,
    path: &str,
    default: &str,
    rules: &[&str],
    disks: &mut O,
    sink: &mut K,
    clock: &mut C,
) -> Status
    ensures collects { (policy : Policy)
        → policy_of default.now (map (λ rule. rule.now) rules.now) ≡ Some policy
        → CollectsKnown
        (DisksFell (O.refuses disks.old path.now) O.D.faults (O.at_path disks.new path.now)
        (O.faults disks.old) (O.faults disks.new)) (O.faults disks.new ≡ O.faults disks.old)
        (clock.new ≡ clock.old) policy (C.ahead clock.old) (C.ahead clock.new)
        (record {
          held = K.held sink.old;
          after = K.held sink.new;
          before = K.faults sink.old;
          now = K.faults sink.new;
        }) (told_at O.D.told (O.at_path disks.old path.now))
        (told_at O.D.told (O.at_path disks.new path.now))
        (images_at O.D.may_leave O.D.moment O.D.left_since (O.at_path disks.old path.now)
        (O.at_path disks.new path.now)) result }
    ensures usage { result ≡ Status.Usage
        → policy_of default.now (map (λ rule. rule.now) rules.now) ≡ None }
    ensures refused { policy_of default.now (map (λ rule. rule.now) rules.now) ≡ None
        → (result ≡ Status.Usage) ⊎ (result ≡ Status.NoMemory) }
    ensures usage_line { result ≡ Status.Usage
        → TellsKnown usage_line (K.held sink.old) (K.held sink.new) (K.faults sink.old)
        (K.faults sink.new) }
    ensures memory_line { policy_of default.now (map (λ rule. rule.now) rules.now) ≡ None
        → result ≡ Status.NoMemory
        → TellsKnown no_memory_line (K.held sink.old) (K.held sink.new) (K.faults sink.old)
        (K.faults sink.new) }
    ensures untouched { policy_of default.now (map (λ rule. rule.now) rules.now) ≡ None
        → (disks.new ≡ disks.old) × (clock.new ≡ clock.old) }
    ensures unread { result ≢ Status.ReadFault }
    ensures unheard { result ≢ Status.ListenerFault }
    ensures write { result ≡ Status.WriteFault → Rose (K.faults sink.old) (K.faults sink.new) }
    ensures sink_stays { IsTrue (tells_all result) → K.faults sink.new ≡ K.faults sink.old }
    ensures disks_stay { IsTrue (spares_disks result) → O.faults disks.new ≡ O.faults disks.old }
    ensures disk { result ≡ Status.DiskFault
        → DisksFell (O.refuses disks.old path.now) O.D.faults (O.at_path disks.new path.now)
        (O.faults disks.old) (O.faults disks.new) }
    ensures back { IsBack (O.at_path disks.old path.now) (O.at_path disks.new path.now) }
    ensures others { OthersStay path.now (O.at_path disks.old) (O.at_path disks.new) }
{
    match Policy::parse(alloc, default, rules) {
        Ok(policy) => collect_at(rt, alloc, path, &policy, disks, sink, clock),
        Err(JsonFault::Bad) => {
            tell(sink, b"nessie: usage\n");
            Status::Usage
        }
        Err(JsonFault::NoMemory) => tell_no_memory(sink),
    }
}
