//! A session: the requests of a source, one after another, and the replies to them.

ghost use Rattle.std.specs.Prelude.{◌≡◌, ◌≢◌, ◌+◌, ◌≤◌, IfNone, IfSome, List, Some, false, ℕ};
ghost use Rattle.cat_desk.specs.Pass.{Keeps};
ghost use Rattle.cat_work.specs.Passes.{IsReady};
ghost use Rattle.std.specs.Io.KnownBytes.{Appends, prepend_known};
ghost use Rattle.cat_io.specs.Causes.{Rose};
ghost use Rattle.cat_serve.specs.Sessions.{ByReadings, Readings, Point, Turn, Stands, EndsKnown, LeavesCut, asks_to_close};
ghost use Rattle.cat_serve.specs.Answers.{GoesTo, LeavesAt};
ghost use Rattle.cat_serve.specs.Passes.{EndsAs, Visit, Visits, place};
ghost use Rattle.cat_serve.specs.Serving.{Serves};

use crate::answer::{answer, refuse};
use crate::ending::Session;
use crate::settings::Settings;
use cat_core::Store;
use cat_desk::{Desk, Gate, Pass};
use cat_http::{Buffer, Incoming, read_request};
use cat_io::{Clock, Sink, Source};
use cat_keeper::Keeper;
use cat_model::refusal::{Reason, Refusal};
use cat_rest::Routes;
use std::alloc::Global;
use std::sync::Wait;
use std::thread::Threads;

/// A session answers at most so many requests.
const MOST: u64 = 1000;

// What comes next, and the reply to it; so many requests may follow. None: the session goes on.
#[allow(clippy::too_many_arguments)]
#[tactic(auto, using(crate::proofs::Standing::keeps_self))]
fn turn<R: Wait + Threads + Sync, K0: Keeper, S: Source, K: Sink, C: Clock, G: Gate>(
    rt: &R,
    alloc: Global,
    routes: &Routes,
    desk: &Desk<Store<K0>>,
    pass: &mut Pass,
    buffer: &mut Buffer,
    source: &mut S,
    sink: &mut K,
    clock: &mut C,
    gate: &mut G,
    settings: Settings,
    left: u64,
) -> Option<Session>
    requires ready { IsReady desk.now pass.old }
    requires gate { G.ready gate.old }
    requires attempts { (1 ≤ settings.attempts) × (settings.attempts ≤ 64) }
    requires markers { (1 ≤ settings.markers) × (settings.markers ≤ 64) }
    ensures on { IfNone result
        (ByReadings (C.ahead clock.old) (C.ahead clock.new)
        (λ (taken : List ℕ) (k : Readings) (c : Point). c.left ≡ left + 1
        → Stands desk.now c pass.old (prepend_known buffer.old.unread (S.left source.old))
        (K.held sink.old)
        → (t : Turn)
        × GoesTo desk.now taken k c left t pass.new
        (prepend_known buffer.new.unread (S.left source.new)) (K.held sink.new))) }
    ensures ends { IfSome result
        (λ end. ByReadings (C.ahead clock.old) (C.ahead clock.new)
        (λ (taken : List ℕ) (k : Readings) (c : Point). c.left ≡ left + 1
        → Stands desk.now c pass.old (prepend_known buffer.old.unread (S.left source.old))
        (K.held sink.old)
        → LeavesAt desk.now taken k c end pass.new (K.held sink.new))) }
    ensures visit { IfNone result
        ((v : Visit)
        × Visits desk.now settings.attempts
        (place (left + 1) pass.old (C.ahead clock.old)
        (prepend_known buffer.old.unread (S.left source.old)) (K.held sink.old)) v
        (place left pass.new (C.ahead clock.new)
        (prepend_known buffer.new.unread (S.left source.new)) (K.held sink.new))
        × (asks_to_close v.message ≡ false)
        × Appends (K.held sink.old) (K.held sink.new) v.reply) }
    ensures last { IfSome result
        (λ end. EndsAs desk.now settings.attempts
        (place (left + 1) pass.old (C.ahead clock.old)
        (prepend_known buffer.old.unread (S.left source.old)) (K.held sink.old)) end
        (S.left source.new) pass.new (C.ahead clock.new) (K.held sink.new)) }
    ensures cut { result ≡ Some Session.ReadFault
        → (b : List ℕ) → prepend_known buffer.old.unread (S.left source.old) ≡ Some b
        → LeavesCut b (S.left source.new) }
    ensures ready { IsReady desk.now pass.new }
    ensures gate { G.ready gate.new × (G.desks gate.new ≡ G.desks gate.old) }
    ensures kept { Keeps desk.now pass.old pass.new }
    ensures open { result ≢ Some Session.Capped }
    ensures read { result ≡ Some Session.ReadFault
        → Rose (S.faults source.old) (S.faults source.new) }
    ensures write { result ≡ Some Session.WriteFault
        → Rose (K.faults sink.old) (K.faults sink.new) }
    ensures source_stays { result ≢ Some Session.ReadFault
        → S.faults source.new ≡ S.faults source.old }
    ensures sink_stays { result ≢ Some Session.WriteFault → K.faults sink.new ≡ K.faults sink.old }
{
    match read_request(source, buffer) {
        Incoming::Request => answer(
            rt,
            alloc,
            routes,
            desk,
            pass,
            &buffer.request(),
            sink,
            clock,
            gate,
            settings,
            left,
        ),
        Incoming::End => Some(Session::Closed),
        Incoming::BadHead => match refuse(alloc, sink, Refusal::BadRequest(Reason::BadHead)) {
            Ok(()) => Some(Session::BadHead),
            Err(_) => Some(Session::WriteFault),
        },
        Incoming::TooLarge => match refuse(alloc, sink, Refusal::TooLarge) {
            Ok(()) => Some(Session::TooLarge),
            Err(_) => Some(Session::WriteFault),
        },
        Incoming::ReadFault => Some(Session::ReadFault),
    }
}

/// Answers the requests of the source, one after another, on a desk's pass: 1,000 at most. Where
/// the gate is asked, the pass has no turn.
#[tactic(auto, using(crate::proofs::Standing::keeps_self))]
#[allow(clippy::too_many_arguments)]
pub fn serve_connection<
    R: Wait + Threads + Sync,
    K0: Keeper,
    S: Source,
    K: Sink,
    C: Clock,
    G: Gate,
>(
    rt: &R,
    alloc: Global,
    desk: &Desk<Store<K0>>,
    pass: &mut Pass,
    source: &mut S,
    sink: &mut K,
    clock: &mut C,
    gate: &mut G,
    settings: Settings,
) -> Session
    requires ready { IsReady desk.now pass.old }
    requires gate { G.ready gate.old }
    requires attempts { (1 ≤ settings.attempts) × (settings.attempts ≤ 64) }
    requires markers { (1 ≤ settings.markers) × (settings.markers ≤ 64) }
    // Whatever other callers do at once, every reply is the one-thread catalogue's at its place in
    // one legal log.
    ensures serves { Serves desk.now settings.attempts
        (place 1000 pass.old (C.ahead clock.old) (S.left source.old) (K.held sink.old)) result
        (S.left source.new) pass.new (C.ahead clock.new) (K.held sink.new) }
    // On the only pass of its desk the session is a script.
    ensures alone { EndsKnown desk.now 1000 pass.old pass.new (C.ahead clock.old)
        (C.ahead clock.new) (S.left source.old) (S.left source.new) (K.held sink.old) result
        (K.held sink.new) }
    ensures ready { IsReady desk.now pass.new }
    ensures gate { G.ready gate.new × (G.desks gate.new ≡ G.desks gate.old) }
    ensures kept { Keeps desk.now pass.old pass.new }
    ensures read { result ≡ Session.ReadFault → Rose (S.faults source.old) (S.faults source.new) }
    ensures write { result ≡ Session.WriteFault → Rose (K.faults sink.old) (K.faults sink.new) }
    ensures source_stays { result ≢ Session.ReadFault → S.faults source.new ≡ S.faults source.old }
    ensures sink_stays { result ≢ Session.WriteFault → K.faults sink.new ≡ K.faults sink.old }
{
    let Ok(mut buffer) = Buffer::new(alloc) else {
        return Session::NoMemory;
    };
    let Ok(routes) = Routes::new(alloc) else {
        return Session::NoMemory;
    };
    'turns: for count in 0..MOST {
        let left = MOST - 1 - count;
        if let Some(end) = turn(
            rt,
            alloc,
            &routes,
            desk,
            pass,
            &mut buffer,
            source,
            sink,
            clock,
            gate,
            settings,
            left,
        ) {
            return end;
        }
    }
    Session::Capped
}
