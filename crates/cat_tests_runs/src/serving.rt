//! Runs of `serve` over connections in memory. What the replies are comes from the plain rules.

use cat_cli::{Status, run};
use cat_io::{
    ConnectionList, MemoryClock, MemoryDisk, MemoryDisks, MemoryListener, MemorySink, MemorySource,
};
use std::alloc::{AllocError, Global};
use std::sync::Wait;
use std::test::Fail;
use std::thread::Threads;

const PATH: &str = "a.journal";

const ADDRESS: &str = "127.0.0.1:7777";

/// A commit of a new table at `t1` of `main`, and one at `t2`.
const PUT_T1: &str =
    "POST /api/v2/trees/main/history/commit HTTP/1.1\r\nContent-Length: 202\r\n\r\n{\"commitMeta\":{\"message\":\"one\"},\"operations\":[{\"type\":\"PUT\",\"key\":{\"elements\":[\"t1\"]},\"content\":{\"type\":\"ICEBERG_TABLE\",\"metadataLocation\":\"m1\",\"snapshotId\":1,\"schemaId\":0,\"specId\":0,\"sortOrderId\":0}}]}";

const PUT_T2: &str =
    "POST /api/v2/trees/main/history/commit HTTP/1.1\r\nContent-Length: 202\r\n\r\n{\"commitMeta\":{\"message\":\"one\"},\"operations\":[{\"type\":\"PUT\",\"key\":{\"elements\":[\"t2\"]},\"content\":{\"type\":\"ICEBERG_TABLE\",\"metadataLocation\":\"m1\",\"snapshotId\":1,\"schemaId\":0,\"specId\":0,\"sortOrderId\":0}}]}";

/// The replies to them, one a second after the other.
const TOLD_T1: &[u8] =
    b"HTTP/1.1 200 OK\r\nContent-Type: application/json\r\nCatalogue-Place: 1\r\nContent-Length: 219\r\n\r\n{\"addedContents\":[{\"contentId\":\"00000000-0000-0001-0000-000000000000\",\"key\":{\"elements\":[\"t1\"]}}],\"targetBranch\":{\"hash\":\"f92df14c291c55081a6374c5074b1394016591b1981cd32b3bddb20a3f86d5d4\",\"name\":\"main\",\"type\":\"BRANCH\"}}";

const TOLD_T2: &[u8] =
    b"HTTP/1.1 200 OK\r\nContent-Type: application/json\r\nCatalogue-Place: 2\r\nContent-Length: 219\r\n\r\n{\"addedContents\":[{\"contentId\":\"00000000-0000-0002-0000-000000000000\",\"key\":{\"elements\":[\"t2\"]}}],\"targetBranch\":{\"hash\":\"7e367a6cb20f32a2d3e78bfb2f56bc6cdf389bbb7aa457398d95a17e56750c8d\",\"name\":\"main\",\"type\":\"BRANCH\"}}";

/// What is told of the journal with both.
const LINE: &[u8] =
    b"entries 2 references 1 commits 2 contents 2 head 7e367a6cb20f32a2d3e78bfb2f56bc6cdf389bbb7aa457398d95a17e56750c8d\n";

/// A connection that sends a request.
fn connection(alloc: Global, request: &str) -> Result<(MemorySource, MemorySink), AllocError> {
    let bytes = Vec::from_slice(alloc, request.as_bytes())?;
    let source = MemorySource::new(bytes, 64, Vec::new(alloc));
    Ok((source, MemorySink::new(alloc, 1_000, Vec::new(alloc))?))
}

/// A listener with a connection for each commit. Of its calls that with this number fails.
fn listener(alloc: Global, failing: u64) -> Result<MemoryListener, AllocError> {
    let own = ConnectionList {
        connections: vec![in alloc; connection(alloc, PUT_T1)?, connection(alloc, PUT_T2)?]?,
        failing: vec![in alloc; failing]?,
    };
    MemoryListener::new(alloc, own, Vec::new(alloc))
}

/// An empty file.
fn disks(alloc: Global) -> Result<MemoryDisks, AllocError> {
    let disk = MemoryDisk::new(alloc, Vec::new(alloc), 100_000, 1_000)?;
    MemoryDisks::new(alloc).with(alloc, PATH, disk)
}

/// Whether a run on these ends with a status and writes a line.
fn ends_with<R: Threads + Wait + Sync>(
    rt: &R,
    alloc: Global,
    words: &[&str],
    disks: &mut MemoryDisks,
    listener: &mut MemoryListener,
    wanted: Status,
    line: &[u8],
) -> Result<bool, AllocError> {
    let mut source = MemorySource::new(Vec::new(alloc), 64, Vec::new(alloc));
    let mut sink = MemorySink::new(alloc, 1_000, Vec::new(alloc))?;
    let mut clock = MemoryClock::new(1_000_000, 1_000_000);
    let status = run(
        rt,
        alloc,
        words,
        disks,
        &mut source,
        &mut sink,
        &mut clock,
        listener,
    );
    Ok(status == wanted && sink.bytes() == line)
}

/// Whether both connections came back with their replies.
fn are_answered(listener: &MemoryListener) -> bool {
    let [(_, first), (_, second)] = listener.returned() else {
        return false;
    };
    first.bytes() == TOLD_T1 && second.bytes() == TOLD_T2
}

#[test]
fn connections_are_answered_and_their_commits_are_kept(rt: HostRuntime) -> Result<(), Fail> {
    let alloc = rt.alloc();
    let mut disks = disks(alloc)?;
    let mut listener = listener(alloc, u64::MAX)?;
    let words = ["nessie", "serve", PATH, ADDRESS, "--connections", "2"];
    assert!(rt;
        ends_with(
            &rt,
            alloc,
            &words,
            &mut disks,
            &mut listener,
            Status::Done,
            b""
        )?
    );
    assert!(rt; listener.heard() == Some((ADDRESS.as_bytes(), 2)));
    assert!(rt; are_answered(&listener));
    let words = ["nessie", "check", PATH];
    assert!(rt;
        ends_with(
            &rt,
            alloc,
            &words,
            &mut disks,
            &mut listener,
            Status::Done,
            LINE
        )?
    );
    Ok(())
}

#[test]
fn a_listener_that_fails_is_told(rt: HostRuntime) -> Result<(), Fail> {
    let alloc = rt.alloc();
    let mut disks = disks(alloc)?;
    let mut listener = listener(alloc, 1)?;
    let words = ["nessie", "serve", PATH, ADDRESS];
    let line = b"nessie: listener fault\n";
    assert!(rt;
        ends_with(
            &rt,
            alloc,
            &words,
            &mut disks,
            &mut listener,
            Status::ListenerFault,
            line
        )?
    );
    assert!(rt; listener.heard() == Some((ADDRESS.as_bytes(), 0)));
    assert!(rt; listener.returned().is_empty());
    Ok(())
}

#[test]
fn too_many_workers_are_no_command(rt: HostRuntime) -> Result<(), Fail> {
    let alloc = rt.alloc();
    let mut disks = disks(alloc)?;
    let mut listener = listener(alloc, u64::MAX)?;
    let words = ["nessie", "serve", PATH, ADDRESS, "--workers", "65"];
    let line = b"nessie: usage\n";
    assert!(rt;
        ends_with(
            &rt,
            alloc,
            &words,
            &mut disks,
            &mut listener,
            Status::Usage,
            line
        )?
    );
    assert!(rt; listener.heard().is_none());
    Ok(())
}
