//! The replies to single requests.

ghost use Rattle.std.specs.Prelude.{◌≡◌, ◌≢◌, ◌≤◌, ◌==◌, ◌||◌, ℕ, List, IfNone, IfSome, Some, None, OnErr, OnOk, false};
ghost use Rattle.cat_desk.specs.Pass.{Keeps};
ghost use Rattle.cat_work.specs.Passes.{IsReady};
ghost use Rattle.cat_io.specs.Causes.{Rose};
ghost use Rattle.cat_serve.specs.Sessions.{ByReadings, Readings, Point, Turn, asks_to_close};
ghost use Rattle.std.specs.Io.KnownBytes.{Appends};
ghost use Rattle.cat_http.specs.Writing.{AppendsFront};
ghost use Rattle.cat_serve.specs.Answers.{SaysTo, IsAsked, IsAnswered, LeavesAt};
ghost use Rattle.cat_serve.specs.Passes.{ComesTo, IsVisit, TellsLast, Visit};
ghost use Rattle.cat_serve.specs.Replies.{IsRefusalOf, is_head};

use crate::ending::Session;
use crate::reply::{refusal_reply, response, send};
use crate::settings::Settings;
use cat_collect::collect;
use cat_core::Store;
use cat_desk::{Desk, Gate, Pass};
use cat_http::{Request, WriteFault};
use cat_io::{Clock, Sink};
use cat_keeper::Keeper;
use cat_model::refusal::{Refusal, Refused};
use cat_model::reply::Told;
use cat_rest::{Routes, Wanted, to_command};
use cat_work::{call, checkpoint, read};
use std::alloc::Global;
use std::sync::Wait;
use std::thread::Threads;

// What the catalogue tells of a request.
#[allow(clippy::too_many_arguments)]
fn said_to<R: Wait + Threads + Sync, K0: Keeper, C: Clock, G: Gate>(
    rt: &R,
    alloc: Global,
    routes: &Routes,
    desk: &Desk<Store<K0>>,
    pass: &mut Pass,
    clock: &mut C,
    gate: &mut G,
    attempts: u32,
    markers: u32,
    request: &Request<'_>,
) -> Result<Told, Refused>
    requires ready { IsReady desk.now pass.old }
    requires gate { G.ready gate.old }
    requires attempts { (1 ≤ attempts) × (attempts ≤ 64) }
    requires markers { (1 ≤ markers) × (markers ≤ 64) }
    ensures says { SaysTo desk.now request.now pass.old (C.ahead clock.old) result pass.new
        (C.ahead clock.new) }
    ensures comes { ComesTo desk.now attempts request.now pass.old (C.ahead clock.old) result
        pass.new (C.ahead clock.new) }
    ensures ready { IsReady desk.now pass.new }
    ensures gate { G.ready gate.new × (G.desks gate.new ≡ G.desks gate.old) }
    ensures kept { Keeps desk.now pass.old pass.new }
{
    match to_command(alloc, routes, request) {
        Ok(Wanted::Read(ask)) => read(rt, alloc, desk, pass, &ask),
        Ok(Wanted::Change(command)) => {
            call(rt, alloc, desk, pass, gate, clock, attempts, &command)
        }
        Ok(Wanted::Collect(policy)) => {
            collect(rt, alloc, desk, pass, gate, clock, &policy, markers)
        }
        Ok(Wanted::Checkpoint) => checkpoint(rt, alloc, desk, pass),
        Err(refused) => Err(refused),
    }
}

/// Answers a request, behind which so many may follow. None: the session goes on.
#[allow(clippy::too_many_arguments)]
pub(crate) fn answer<R: Wait + Threads + Sync, K0: Keeper, K: Sink, C: Clock, G: Gate>(
    rt: &R,
    alloc: Global,
    routes: &Routes,
    desk: &Desk<Store<K0>>,
    pass: &mut Pass,
    request: &Request<'_>,
    sink: &mut K,
    clock: &mut C,
    gate: &mut G,
    settings: Settings,
    left: u64,
) -> Option<Session>
    requires ready { IsReady desk.now pass.old }
    requires gate { G.ready gate.old }
    requires attempts { (1 ≤ settings.attempts) × (settings.attempts ≤ 64) }
    requires markers { (1 ≤ settings.markers) × (settings.markers ≤ 64) }
    ensures on { IfNone result
        (ByReadings (C.ahead clock.old) (C.ahead clock.new)
        (λ (taken : List ℕ) (k : Readings) (c : Point). (rest : List ℕ)
        → IsAsked desk.now c left request.now rest pass.old (K.held sink.old)
        → (t : Turn) × IsAnswered desk.now taken k c left rest t pass.new (K.held sink.new))) }
    ensures ends { IfSome result
        (λ end. ByReadings (C.ahead clock.old) (C.ahead clock.new)
        (λ (taken : List ℕ) (k : Readings) (c : Point). (rest : List ℕ)
        → IsAsked desk.now c left request.now rest pass.old (K.held sink.old)
        → LeavesAt desk.now taken k c end pass.new (K.held sink.new))) }
    ensures visit { IfNone result
        ((v : Visit) × (v.message ≡ request.now)
        × IsVisit desk.now settings.attempts left pass.old (C.ahead clock.old) v pass.new
        (C.ahead clock.new)
        × (asks_to_close v.message ≡ false)
        × Appends (K.held sink.old) (K.held sink.new) v.reply) }
    ensures last { IfSome result
        (λ end. (v : Visit) × (v.message ≡ request.now)
        × IsVisit desk.now settings.attempts left pass.old (C.ahead clock.old) v pass.new
        (C.ahead clock.new)
        × (tail : List ℕ) × Appends (K.held sink.old) (K.held sink.new) tail
        × TellsLast end v tail) }
    ensures ready { IsReady desk.now pass.new }
    ensures gate { G.ready gate.new × (G.desks gate.new ≡ G.desks gate.old) }
    ensures kept { Keeps desk.now pass.old pass.new }
    ensures open { result ≢ Some Session.Capped }
    ensures read { result ≢ Some Session.ReadFault }
    ensures write { result ≡ Some Session.WriteFault
        → Rose (K.faults sink.old) (K.faults sink.new) }
    ensures stays { result ≢ Some Session.WriteFault → K.faults sink.new ≡ K.faults sink.old }
{
    let said = said_to(
        rt,
        alloc,
        routes,
        desk,
        pass,
        clock,
        gate,
        settings.attempts,
        settings.markers,
        request,
    );
    let closes = request.closes();
    let reply = response(alloc, is_last(closes, left), is_head(request), &said);
    drop(said);
    match reply {
        Ok(reply) => match send(sink, reply) {
            Ok(()) => { if closes { Some(Session::Closed) } else { None } }
            Err(_) => Some(Session::WriteFault),
        },
        Err(_) => Some(Session::NoMemory),
    }
}

// A request that closes the session is its last one, and so is one that none may follow.
fn is_last(closes: bool, left: u64) -> bool
    ensures { result ≡ (closes || left == 0) }
{
    closes || left == 0
}

fn is_head(request: &Request<'_>) -> bool
    ensures { result ≡ is_head request.now }
{
    request.method() == b"HEAD".as_slice()
}

/// Answers bytes that are refused.
pub(crate) fn refuse<K: Sink>(alloc: Global, sink: &mut K, why: Refusal) -> Result<(), WriteFault>
    ensures written { OnOk result
        ((bytes : List ℕ) × IsRefusalOf why bytes
        × Appends (K.held sink.old) (K.held sink.new) bytes) }
    ensures cut { OnErr result
        ((bytes : List ℕ) × IsRefusalOf why bytes
        × AppendsFront (K.held sink.old) (K.held sink.new) bytes) }
    ensures cause { OnErr result (Rose (K.faults sink.old) (K.faults sink.new)) }
    ensures stays { OnOk result (K.faults sink.new ≡ K.faults sink.old) }
{
    send(sink, refusal_reply(alloc, why))
}
