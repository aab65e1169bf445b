//! Connections that several workers serve at once.

ghost use Rattle.std.specs.Prelude.{◌≤◌};

use crate::asking::desk_of;
use crate::requests::{PUT_A1, PUT_A2, PUT_T1, PUT_T2};
use cat_io::{
    ConnectionList, Listener, MemoryClock, MemoryListener, MemorySink, MemorySource,
    TcpConnections, TcpLimits,
};
use cat_model::limits::Limits;
use cat_serve::{Served, Settings, serve_all};
use std::alloc::{AllocError, Global};
use std::io::{self, Read, Write};
use std::net::{Net, SocketAddr, TcpStream};
use std::process::Abort;
use std::sync::Wait;
use std::test::Fail;
use std::thread::{Threads, join_mut};
use std::time::Duration;

/// A request of the configuration.
const ASK: &str = "GET /api/v2/config HTTP/1.1\r\n\r\n";

/// The reply to it on an empty catalogue.
const CONFIG: &[u8] =
    b"HTTP/1.1 200 OK\r\nContent-Type: application/json\r\nCatalogue-Place: 0\r\nContent-Length: 183\r\n\r\n{\"actualApiVersion\":2,\"defaultBranch\":\"main\",\"maxSupportedApiVersion\":2,\"minSupportedApiVersion\":2,\"noAncestorHash\":\"2e1cfa82b035c26cbbbdae632cea070514eb8b773f616aaeaf668e2f0be8f10d\"}";

/// The reply to a change that was accepted, as far as its place.
const ACCEPTED: &[u8] = b"HTTP/1.1 200 OK\r\nContent-Type: application/json\r\nCatalogue-Place: ";

/// A branch each at the head of `main`, and a commit of a new table to it.
const ON_BRANCHES: [&str; 4] = [
    "POST /api/v2/trees?name=b1&type=BRANCH HTTP/1.1\r\nContent-Length: 31\r\n\r\n{\"type\":\"BRANCH\",\"name\":\"main\"}POST /api/v2/trees/b1/history/commit HTTP/1.1\r\nContent-Length: 201\r\n\r\n{\"commitMeta\":{\"message\":\"one\"},\"operations\":[{\"type\":\"PUT\",\"key\":{\"elements\":[\"t1\"]},\"content\":{\"type\":\"ICEBERG_TABLE\",\"metadataLocation\":\"p\",\"snapshotId\":1,\"schemaId\":0,\"specId\":0,\"sortOrderId\":0}}]}",
    "POST /api/v2/trees?name=b2&type=BRANCH HTTP/1.1\r\nContent-Length: 31\r\n\r\n{\"type\":\"BRANCH\",\"name\":\"main\"}POST /api/v2/trees/b2/history/commit HTTP/1.1\r\nContent-Length: 201\r\n\r\n{\"commitMeta\":{\"message\":\"one\"},\"operations\":[{\"type\":\"PUT\",\"key\":{\"elements\":[\"t1\"]},\"content\":{\"type\":\"ICEBERG_TABLE\",\"metadataLocation\":\"p\",\"snapshotId\":1,\"schemaId\":0,\"specId\":0,\"sortOrderId\":0}}]}",
    "POST /api/v2/trees?name=b3&type=BRANCH HTTP/1.1\r\nContent-Length: 31\r\n\r\n{\"type\":\"BRANCH\",\"name\":\"main\"}POST /api/v2/trees/b3/history/commit HTTP/1.1\r\nContent-Length: 201\r\n\r\n{\"commitMeta\":{\"message\":\"one\"},\"operations\":[{\"type\":\"PUT\",\"key\":{\"elements\":[\"t1\"]},\"content\":{\"type\":\"ICEBERG_TABLE\",\"metadataLocation\":\"p\",\"snapshotId\":1,\"schemaId\":0,\"specId\":0,\"sortOrderId\":0}}]}",
    "POST /api/v2/trees?name=b4&type=BRANCH HTTP/1.1\r\nContent-Length: 31\r\n\r\n{\"type\":\"BRANCH\",\"name\":\"main\"}POST /api/v2/trees/b4/history/commit HTTP/1.1\r\nContent-Length: 201\r\n\r\n{\"commitMeta\":{\"message\":\"one\"},\"operations\":[{\"type\":\"PUT\",\"key\":{\"elements\":[\"t1\"]},\"content\":{\"type\":\"ICEBERG_TABLE\",\"metadataLocation\":\"p\",\"snapshotId\":1,\"schemaId\":0,\"specId\":0,\"sortOrderId\":0}}]}",
];

/// What ends the reply to such a commit.
const COMMITTED: &[u8] = b"\"type\":\"BRANCH\"}}";

/// Connections with a request each, and the numbers of the calls that fail.
fn list_of(
    alloc: Global,
    requests: &[&str],
    failing: &[u64],
) -> Result<ConnectionList, AllocError> {
    let mut connections = Vec::new(alloc);
    for request in requests {
        let source = MemorySource::new(request.as_bytes().to_vec(alloc)?, 4096, Vec::new(alloc));
        let sink = MemorySink::new(alloc, 4096, Vec::new(alloc))?;
        connections.push((source, sink))?;
    }
    let failing = Vec::from_slice(alloc, failing)?;
    Ok(ConnectionList {
        connections,
        failing,
    })
}

/// How serving ends, by so many workers on an empty catalogue.
fn serve<R: Threads + Wait + Sync + Abort, L: Listener>(
    rt: &R,
    alloc: Global,
    listener: &mut L,
    workers: u32,
) -> Served
    requires { (1 ≤ workers) × (workers ≤ 64) }
{
    let (desk, mut pass) = desk_of(rt, alloc, Limits::program(), &[]);
    let mut clock = MemoryClock::new(1_000_000, 1_000_000);
    let settings = Settings {
        attempts: 8,
        markers: 2,
    };
    let served = serve_all(
        rt, alloc, &desk, &mut pass, listener, &mut clock, workers, settings,
    );
    desk.give_up(pass);
    served
}

/// Whether the connections are one, and it holds the configuration.
fn hold_config(connections: &[(MemorySource, MemorySink)]) -> bool {
    let [(_, sink)] = connections else {
        return false;
    };
    sink.bytes() == CONFIG
}

/// Whether the connections are one, to which nothing was written.
fn is_unanswered(connections: &[(MemorySource, MemorySink)]) -> bool {
    let [(_, sink)] = connections else {
        return false;
    };
    sink.bytes().is_empty()
}

#[test]
fn the_caller_and_a_twin_serve_a_connection_each(rt: HostRuntime) -> Result<(), Fail> {
    let alloc = rt.alloc();
    let lists = vec![in alloc; list_of(alloc, &[ASK], &[])?]?;
    let mut listener = MemoryListener::new(alloc, list_of(alloc, &[ASK], &[])?, lists)?;
    let served = serve(&rt, alloc, &mut listener, 2);
    assert!(rt; matches!(served, Served::End));
    assert!(rt; hold_config(listener.returned()));
    assert!(rt; listener.rejoined().len() == 1 && hold_config(listener.rejoined()[0].as_slice()));
    Ok(())
}

// The listener's first call makes the twin, its second one is to give it a connection.
#[test]
fn a_worker_whose_listener_fails_stops_and_others_go_on(rt: HostRuntime) -> Result<(), Fail> {
    let alloc = rt.alloc();
    let lists = vec![in alloc; list_of(alloc, &[ASK], &[])?]?;
    let mut listener = MemoryListener::new(alloc, list_of(alloc, &[ASK], &[2])?, lists)?;
    let served = serve(&rt, alloc, &mut listener, 2);
    assert!(rt; matches!(served, Served::ListenerFault));
    assert!(rt; listener.fault_count() == 1 && listener.returned().is_empty());
    assert!(rt; listener.rejoined().len() == 1 && hold_config(listener.rejoined()[0].as_slice()));
    Ok(())
}

// What was dealt to it comes back with it, as it was.
#[test]
fn a_twin_whose_accept_fails_is_told(rt: HostRuntime) -> Result<(), Fail> {
    let alloc = rt.alloc();
    let lists = vec![in alloc; list_of(alloc, &[ASK], &[1])?]?;
    let mut listener = MemoryListener::new(alloc, list_of(alloc, &[ASK], &[])?, lists)?;
    let served = serve(&rt, alloc, &mut listener, 2);
    assert!(rt; matches!(served, Served::ListenerFault));
    assert!(rt; listener.fault_count() == 1 && hold_config(listener.returned()));
    assert!(rt; listener.rejoined().len() == 1 && is_unanswered(listener.rejoined()[0].as_slice()));
    Ok(())
}

#[test]
fn without_a_twin_nothing_is_accepted(rt: HostRuntime) -> Result<(), Fail> {
    let alloc = rt.alloc();
    let lists = vec![in alloc; list_of(alloc, &[ASK], &[])?]?;
    let mut listener = MemoryListener::new(alloc, list_of(alloc, &[ASK], &[2])?, lists)?;
    let served = serve(&rt, alloc, &mut listener, 3);
    assert!(rt; matches!(served, Served::NoMemory));
    assert!(rt; listener.fault_count() == 0 && listener.returned().is_empty());
    assert!(rt; listener.rejoined().len() == 1 && is_unanswered(listener.rejoined()[0].as_slice()));
    Ok(())
}

/// The place that each connection's reply tells, where it tells of a change that was accepted, as a
/// bit each.
fn places(connections: &[(MemorySource, MemorySink)]) -> u64 {
    let mut found = 0;
    for (_, sink) in connections {
        if let Some([digit @ b'1'..=b'9', ..]) = sink.bytes().strip_prefix(ACCEPTED) {
            found |= 1 << (*digit - b'0');
        }
    }
    found
}

#[test]
fn commits_to_one_branch_at_once_are_all_accepted(rt: HostRuntime) -> Result<(), Fail> {
    let alloc = rt.alloc();
    let lists = vec![in alloc;
        list_of(alloc, &[PUT_T2], &[])?,
        list_of(alloc, &[PUT_A1], &[])?,
        list_of(alloc, &[PUT_A2], &[])?,
    ]?;
    let mut listener = MemoryListener::new(alloc, list_of(alloc, &[PUT_T1], &[])?, lists)?;
    let served = serve(&rt, alloc, &mut listener, 4);
    assert!(rt; matches!(served, Served::End));
    let mut found = places(listener.returned());
    for group in listener.rejoined() {
        found |= places(group.as_slice());
    }
    assert!(rt; found == 0b11110);
    Ok(())
}

/// Whether each connection was told of a branch that was made, and of a commit to it.
fn have_committed(connections: &[(MemorySource, MemorySink)]) -> bool {
    for (_, sink) in connections {
        let told = sink.bytes();
        if told.len() < 400 || !told.starts_with(ACCEPTED) || !told.ends_with(COMMITTED) {
            return false;
        }
    }
    true
}

#[test]
fn commits_to_four_branches_at_once_are_all_accepted(rt: HostRuntime) -> Result<(), Fail> {
    let alloc = rt.alloc();
    let [first, second, third, fourth] = ON_BRANCHES;
    let lists = vec![in alloc;
        list_of(alloc, &[second], &[])?,
        list_of(alloc, &[third], &[])?,
        list_of(alloc, &[fourth], &[])?,
    ]?;
    let mut listener = MemoryListener::new(alloc, list_of(alloc, &[first], &[])?, lists)?;
    let served = serve(&rt, alloc, &mut listener, 4);
    assert!(rt; matches!(served, Served::End));
    assert!(rt; listener.returned().len() == 1 && have_committed(listener.returned()));
    for group in listener.rejoined() {
        assert!(rt; group.len() == 1 && have_committed(group.as_slice()));
    }
    Ok(())
}

/// Whether the client is told the configuration within ten seconds.
fn is_told(client: &mut TcpStream) -> io::Result<bool> {
    let mut got = [0; 275];
    client.set_read_timeout(Some(Duration::from_secs(10)))?;
    client.write_all(ASK.as_bytes())?;
    client.read_exact(&mut got)?;
    Ok(got.as_slice() == CONFIG)
}

/// Whether a client is answered while another one's connection is open, which asks again after
/// that.
fn are_told<R: Net<Stream = TcpStream>>(rt: &R, address: SocketAddr) -> io::Result<bool> {
    let mut first = TcpStream::connect(rt, address)?;
    let mut second = TcpStream::connect(rt, address)?;
    let told = [
        is_told(&mut first)?,
        is_told(&mut second)?,
        is_told(&mut first)?,
    ];
    Ok(told == [true; 3])
}

#[test]
fn a_connection_is_served_while_another_waits_for_it(rt: HostRuntime) -> Result<(), Fail> {
    let alloc = rt.alloc();
    let limits = TcpLimits {
        call: 20,
        silence: 60,
    };
    let mut listener = TcpConnections::new(rt, alloc, limits);
    assert!(rt; listener.listen("127.0.0.1:0", 2) == Ok(()));
    let address = listener.local_address().ok_or("no address")?;
    let (served, told) = join_mut(
        &rt,
        &mut || serve(&rt, alloc, &mut listener, 2),
        &mut || are_told(&rt, address),
    );
    assert!(rt; matches!(served, Served::End));
    assert!(rt; told?);
    Ok(())
}
