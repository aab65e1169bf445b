//! Real files: a disk over one, and a journal in one.

use cat_cli::{Status, run};
use cat_io::{
    Disk, Disks, Failed, FileDisk, Folder, MemoryClock, MemorySink, MemorySource, NoListener,
};
use std::alloc::Global;
use std::process::Abort;
use std::sync::Wait;
use std::test::Fail;
use std::thread::Threads;

/// Whether a file is emptied, written behind its end and at its front, and cut.
fn write(disk: &mut FileDisk) -> Result<(), Failed> {
    disk.cut(0)?;
    disk.write_at(1, b"bcd")?;
    disk.write_at(0, b"a")?;
    disk.cut(3)?;
    disk.cut(9)?;
    disk.sync()
}

/// Whether what was written is read, and a write past the last place is a fault.
fn is_written(disk: &mut FileDisk) -> bool {
    let mut into = [0; 8];
    disk.len() == Ok(3)
        && disk.read_at(0, &mut into) == Ok(3)
        && into.as_slice().starts_with(b"abc")
        && disk.write_at(u64::MAX, b"ab") == Err(Failed)
        && disk.fault_count() == 1
}

#[test]
fn a_file_is_one_disks_and_keeps_its_bytes_when_it_is_opened_again(rt: HostRuntime) {
    let mut folder = Folder::new(&rt, rt.alloc());
    let path = "cat_tests_runs.file";
    let Ok(mut disk) = folder.open(path) else {
        panic!(rt; "a file is opened");
    };
    assert!(rt; write(&mut disk) == Ok(()));
    folder.back(path, disk);
    let Ok(mut again) = folder.open(path) else {
        panic!(rt; "a file is opened");
    };
    assert!(rt; is_written(&mut again));
    assert!(rt; folder.first_error().is_none());
    assert!(rt; folder.open(path).is_err());
    let told = folder.first_error();
    assert!(rt; told.is_some_and(|(of, _)| of == path));
    folder.back(path, again);
    assert!(rt; folder.open(path).is_ok());
    assert!(rt; folder.open("absent/file").is_err());
}

const PATH: &str = "cat_tests_runs.journal";

/// A commit of a new table `m1` at `t1` of `main`.
const PUT_T1: &str =
    "POST /api/v2/trees/main/history/commit HTTP/1.1\r\nContent-Length: 202\r\n\r\n{\"commitMeta\":{\"message\":\"one\"},\"operations\":[{\"type\":\"PUT\",\"key\":{\"elements\":[\"t1\"]},\"content\":{\"type\":\"ICEBERG_TABLE\",\"metadataLocation\":\"m1\",\"snapshotId\":1,\"schemaId\":0,\"specId\":0,\"sortOrderId\":0}}]}";

const READ_T1: &str = "GET /api/v2/trees/main/contents/t1 HTTP/1.1\r\n\r\n";

/// What ends the reply to it.
const TOLD: &[u8] =
    b"{\"hash\":\"f92df14c291c55081a6374c5074b1394016591b1981cd32b3bddb20a3f86d5d4\",\"name\":\"main\",\"type\":\"BRANCH\"}}";

const LINE: &[u8] =
    b"entries 1 references 1 commits 1 contents 1 head f92df14c291c55081a6374c5074b1394016591b1981cd32b3bddb20a3f86d5d4\n";

/// Whether a command on the journal is done with a request, and what it writes ends so.
fn ends_with<R: Threads + Wait + Sync + Abort, O: Disks>(
    rt: &R,
    alloc: Global,
    disks: &mut O,
    command: &str,
    request: &str,
    ending: &[u8],
) -> bool {
    let (Ok(bytes), Ok(mut sink)) = (
        request.as_bytes().to_vec(alloc),
        MemorySink::new(alloc, 100_000, Vec::new(alloc)),
    ) else {
        panic!(rt; "there is memory");
    };
    let mut source = MemorySource::new(bytes, 4096, Vec::new(alloc));
    let mut clock = MemoryClock::new(1_000_000, 1_000_000);
    let status = run(
        rt,
        alloc,
        &["nessie", command, PATH],
        disks,
        &mut source,
        &mut sink,
        &mut clock,
        &mut NoListener::new(),
    );
    status == Status::Done && sink.bytes().ends_with(ending)
}

#[test]
fn a_commit_is_read_back_from_a_file(rt: HostRuntime) -> Result<(), Fail> {
    let alloc = rt.alloc();
    let mut folder = Folder::new(&rt, rt.alloc());
    let mut empty = folder.open(PATH).ok().ok_or("no file")?;
    assert!(rt; empty.cut(0) == Ok(()));
    folder.back(PATH, empty);
    assert!(rt; ends_with(&rt, alloc, &mut folder, "script", PUT_T1, b""));
    assert!(rt; ends_with(&rt, alloc, &mut folder, "script", READ_T1, TOLD));
    assert!(rt; ends_with(&rt, alloc, &mut folder, "check", "", LINE));
    Ok(())
}
