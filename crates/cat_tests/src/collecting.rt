//! Collections beside workers that wait for nobody.

use crate::asking::{desk_of, reading};
use crate::collected::{COLLECT_AND_READ, FIRST_ROUND, READ, SECOND_ROUND};
use cat_codes::bytes::Bytes;
use cat_core::Store;
use cat_io::{ConnectionList, MemoryClock, MemoryListener, MemorySink, MemorySource};
use cat_keeper::MemKeeper;
use cat_model::ask::Ask;
use cat_model::limits::Limits;
use cat_replies::to_json;
use cat_serve::{Served, Settings, serve_all};
use std::alloc::{AllocError, Global};
use std::process::Abort;
use std::str;
use std::sync::Wait;
use std::test::Fail;
use std::thread::Threads;

/// Connections with these requests.
fn list_of(alloc: Global, requests: &[&str]) -> Result<ConnectionList, AllocError> {
    let mut connections = Vec::new(alloc);
    for request in requests {
        let source = MemorySource::new(request.as_bytes().to_vec(alloc)?, 4096, Vec::new(alloc));
        let sink = MemorySink::new(alloc, 65536, Vec::new(alloc))?;
        connections.push((source, sink))?;
    }
    Ok(ConnectionList {
        connections,
        failing: Vec::new(alloc),
    })
}

/// Serves the connections by three workers on an empty catalogue, and gives the log's payloads.
fn serve_three<R: Threads + Wait + Sync + Abort>(
    rt: &R,
    alloc: Global,
    listener: &mut MemoryListener,
) -> Option<MemKeeper> {
    let (desk, mut pass) = desk_of(rt, alloc, Limits::program(), &[]);
    let mut clock = MemoryClock::new(1_000_000, 1_000_000);
    let settings = Settings {
        attempts: 64,
        markers: 2,
    };
    let served = serve_all(
        rt, alloc, &desk, &mut pass, listener, &mut clock, 3, settings,
    );
    let store = match desk.close(pass) {
        Ok(store) => store,
        Err((desk, pass, _)) => {
            desk.give_up(pass);
            panic!(rt; "a close takes no memory")
        }
    };
    match served {
        Served::End => Some(store.into_keeper()),
        _ => {
            drop(store);
            None
        }
    }
}

/// The store that the first so many payloads lead to, each executed again.
pub(crate) fn led_to(alloc: Global, payloads: &[Bytes], count: usize) -> Option<Store<MemKeeper>> {
    let mut front = Vec::new(alloc);
    for payload in payloads.get(..count)? {
        let copy = Bytes::from_slice(alloc, payload.as_slice()).ok()?;
        front.push(copy).ok()?;
    }
    if front.len() as u64 > 4_294_967_295 {
        return None;
    }
    match Store::open(alloc, MemKeeper::new(alloc, front), Limits::program()) {
        Ok(store) => Some(store),
        Err((keeper, _)) => {
            drop(keeper);
            None
        }
    }
}

/// How many contents there are at a place of the log.
fn contents_at(alloc: Global, payloads: &[Bytes], place: u32) -> Option<u64> {
    let store = led_to(alloc, payloads, place as usize)?;
    let contents = store.counts().contents;
    drop(store);
    Some(contents)
}

/// What a read is answered at a place of the log.
fn read_at(alloc: Global, payloads: &[Bytes], place: u32, ask: &Ask) -> Option<String> {
    let store = led_to(alloc, payloads, place as usize)?;
    let told = store.read(alloc, ask);
    drop(store);
    match told {
        Ok(told) => to_json(alloc, &told.reply).ok(),
        Err(refused) => {
            drop(refused);
            None
        }
    }
}

/// The number behind a name, before what ends it.
fn number_in(text: &str, name: &str, end: &str) -> Option<u64> {
    let (_, behind) = text.split_once(name)?;
    let digits = match behind.split_once(end) {
        Some((digits, _)) => digits,
        None => behind,
    };
    digits.parse::<u64>().ok()
}

/// The place that a reply tells.
fn place_in(text: &str) -> Option<u32> {
    let place = number_in(text, "Catalogue-Place: ", "\r\n")?;
    u32::try_from(place).ok()
}

/// Whether a session was told what the log says: how many contents its collection kept and removed,
/// and what it read then.
fn is_as_logged(alloc: Global, payloads: &[Bytes], ask: &Ask, told: &[u8]) -> Option<bool> {
    let text = str::from_utf8(told).ok()?;
    let (sweep, behind) = text.split_once("}HTTP/1.1 200 OK\r\n")?;
    let (read, _) = behind.split_once("HTTP/1.1 ")?;
    let (head, body) = read.split_once("\r\n\r\n")?;
    let place = place_in(sweep)?;
    let kept = number_in(sweep, "\"kept\":", ",")?;
    let removed = number_in(sweep, "\"removed\":", ",")?;
    let before = contents_at(alloc, payloads, place.checked_sub(1)?)?;
    let after = contents_at(alloc, payloads, place)?;
    let wanted = read_at(alloc, payloads, place_in(head)?, ask)?;
    let is_swept = kept == after && before.checked_sub(after) == Some(removed);
    Some(is_swept && wanted.as_str() == body)
}

/// How many sessions were told what the log says.
fn count_logged(
    alloc: Global,
    payloads: &[Bytes],
    ask: &Ask,
    connections: &[(MemorySource, MemorySink)],
) -> usize {
    connections
        .iter()
        .filter(|pair| is_as_logged(alloc, payloads, ask, pair.1.bytes()) == Some(true))
        .count()
}

// One worker collects twenty times, while two others put tables on `main` and take them away again,
// and make, move and remove branches; each collection's numbers and the read behind it are compared
// with what the one log comes to when it is executed again.
#[test]
fn collections_beside_others_remove_what_the_log_says(rt: HostRuntime) -> Result<(), Fail> {
    let alloc = rt.alloc();
    let lists = vec![in alloc;
        list_of(alloc, &[FIRST_ROUND; 12])?,
        list_of(alloc, &[SECOND_ROUND; 12])?,
    ]?;
    let own = list_of(alloc, &[COLLECT_AND_READ; 20])?;
    let mut listener = MemoryListener::new(alloc, own, lists)?;
    let keeper = serve_three(&rt, alloc, &mut listener).ok_or("they weren't served")?;
    let ask = reading(&rt, alloc, READ);
    let logged = count_logged(alloc, keeper.payloads(), &ask, listener.returned());
    drop(ask);
    drop(keeper);
    assert!(rt; logged == 20);
    Ok(())
}
