//! Stores in memory, and what the changes of requests come to on them.

ghost use Rattle.std.specs.Prelude.{◌≡◌, ◌<◌, ◌+◌, IsTrue};
ghost use Rattle.sha2.specs.Sha256.{sha256};
ghost use Rattle.cat_desk.specs.Pass.{Keeps, spare_of, stands_for};
ghost use Rattle.cat_model.specs.WellMade.{is_well_made};
ghost use Rattle.cat_work.specs.Passes.{IsReady};

use cat_core::Store;
use cat_desk::{Desk, NoGate, Pass};
use cat_http::{Buffer, Incoming, read_request};
use cat_io::{MemoryClock, MemorySource};
use cat_keeper::{Keeper, MemKeeper};
use cat_model::ask::Ask;
use cat_model::command::Command;
use cat_model::limits::{Limits, Quantity};
use cat_model::refusal::{Refusal, Refused};
use cat_model::reply::{Reply, Told};
use cat_names::hash::Hash;
use cat_rest::{Routes, Wanted, to_command};
use cat_work::call;
use std::alloc::Global;
use std::process::Abort;
use std::sync::Wait;

/// The change that a request asks for.
pub(crate) fn change<R: Abort>(rt: &R, alloc: Global, text: &str) -> Command
    ensures { IsTrue (is_well_made sha256 result) }
{
    let (Ok(bytes), Ok(mut buffer), Ok(routes)) = (
        text.as_bytes().to_vec(alloc),
        Buffer::new(alloc),
        Routes::new(alloc),
    ) else {
        panic!(rt; "there is memory");
    };
    let mut source = MemorySource::new(bytes, 4096, Vec::new(alloc));
    if read_request(&mut source, &mut buffer) != Incoming::Request {
        panic!(rt; "it is a request");
    }
    match to_command(alloc, &routes, &buffer.request()) {
        Ok(Wanted::Change(command)) => command,
        _ => panic!(rt; "it asks for a change"),
    }
}

/// The read that a request asks for.
pub(crate) fn reading<R: Abort>(rt: &R, alloc: Global, text: &str) -> Ask {
    let (Ok(bytes), Ok(mut buffer), Ok(routes)) = (
        text.as_bytes().to_vec(alloc),
        Buffer::new(alloc),
        Routes::new(alloc),
    ) else {
        panic!(rt; "there is memory");
    };
    let mut source = MemorySource::new(bytes, 4096, Vec::new(alloc));
    if read_request(&mut source, &mut buffer) != Incoming::Request {
        panic!(rt; "it is a request");
    }
    match to_command(alloc, &routes, &buffer.request()) {
        Ok(Wanted::Read(ask)) => ask,
        _ => panic!(rt; "it asks for a read"),
    }
}

/// A desk over an empty store of these limits whose log is in memory, some of whose appends fail,
/// counted from 1.
pub(crate) fn desk_of<R: Abort>(
    rt: &R,
    alloc: Global,
    limits: Limits,
    failing: &[u64],
) -> (Desk<Store<MemKeeper>>, Pass)
    ensures ready { IsReady result.0 result.1 }
    ensures spare { spare_of result.1 ≡ 4294967294 }
    ensures alone { stands_for result.1 ≡ 1 }
{
    if limits.log > 4_294_967_295 || limits.commits > 4_294_967_295 {
        panic!(rt; "these are limits of a store");
    }
    let Ok(calls) = Vec::from_slice(alloc, failing) else {
        panic!(rt; "there is memory");
    };
    let keeper = MemKeeper::new(alloc, Vec::new(alloc)).failing(calls);
    let Ok(store) = Store::new(alloc, keeper, limits) else {
        panic!(rt; "there is memory");
    };
    match Desk::new(alloc, store) {
        Ok(both) => both,
        Err(_) => panic!(rt; "there is memory"),
    }
}

/// A pass that another one splits off.
pub(crate) fn second<R: Abort>(rt: &R, desk: &Desk<Store<MemKeeper>>, first: &mut Pass) -> Pass
    requires ready { IsReady desk.now first.old }
    requires spare { 0 < spare_of first.old }
    ensures first { IsReady desk.now first.new }
    ensures second { IsReady desk.now result }
    ensures left { spare_of first.new + 1 ≡ spare_of first.old }
    ensures alone { (stands_for result ≡ 1) × (spare_of result ≡ 0) }
    ensures still { stands_for first.new ≡ stands_for first.old }
{
    match desk.split(first) {
        Ok(second) => second,
        Err(_) => panic!(rt; "a split takes no memory"),
    }
}

/// Makes a change on a pass, as a request asks for it.
pub(crate) fn make<R: Abort + Wait, K: Keeper>(
    rt: &R,
    alloc: Global,
    desk: &Desk<Store<K>>,
    pass: &mut Pass,
    clock: &mut MemoryClock,
    text: &str,
) -> Result<Told, Refused>
    requires { IsReady desk.now pass.old }
    ensures ready { IsReady desk.now pass.new }
    ensures kept { Keeps desk.now pass.old pass.new }
{
    let command = change(rt, alloc, text);
    let answer = call(rt, alloc, desk, pass, &mut NoGate {}, clock, 8, &command);
    drop(command);
    answer
}

/// What a change came to.
#[derive(Clone, Copy, PartialEq, Eq)]
pub(crate) enum Outcome {
    /// Accepted, at this place.
    Accepted(u32),
    /// It would pass this limit, at this place.
    Full(Quantity, u64, Option<u32>),
    /// Its entry wasn't kept, at this place.
    Fault(Option<u32>),
    /// Entries are no longer kept since so many faults, at this place.
    Down(u64, Option<u32>),
    Other,
}

fn refused_as(refused: &Refused) -> Outcome {
    match &refused.why {
        Refusal::Limit { which, number } => Outcome::Full(*which, *number, refused.place),
        Refusal::Fault => Outcome::Fault(refused.place),
        Refusal::Down(count) => Outcome::Down(*count, refused.place),
        _ => Outcome::Other,
    }
}

/// What an answer came to.
pub(crate) fn outcome_of(answer: Result<Told, Refused>) -> Outcome {
    let outcome = match &answer {
        Ok(told) => Outcome::Accepted(told.place),
        Err(refused) => refused_as(refused),
    };
    drop(answer);
    outcome
}

/// The head that a reply tells.
fn head_in(reply: &Reply) -> Option<Hash> {
    match reply {
        Reply::Committed(committed) => Some(committed.target.head),
        Reply::Merged(merged) => Some(merged.target.head),
        Reply::Reference(reference) => Some(reference.head),
        _ => None,
    }
}

/// Whether a change was accepted at this place, and left a head of these digits.
pub(crate) fn left(answer: Result<Told, Refused>, place: u32, head: &str) -> bool {
    let is_so = match &answer {
        Ok(told) => told.place == place && head_in(&told.reply) == Hash::parse(head),
        Err(_) => false,
    };
    drop(answer);
    is_so
}

/// Whether changes on a new store come to these outcomes, one after another.
pub(crate) fn come_to<R: Abort + Wait>(
    rt: &R,
    alloc: Global,
    limits: Limits,
    failing: &[u64],
    changes: &[(&str, Outcome)],
) -> bool {
    let (desk, mut pass) = desk_of(rt, alloc, limits, failing);
    let mut clock = MemoryClock::new(1_000_000, 1_000_000);
    let mut are_so = true;
    for (text, wanted) in changes {
        let answer = make(rt, alloc, &desk, &mut pass, &mut clock, text);
        are_so = outcome_of(answer) == *wanted && are_so;
    }
    desk.give_up(pass);
    are_so
}
