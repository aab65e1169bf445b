//! Adapters over std's streams and clock, and objects that are absent.

use cat_io::{
    Clock, Disks, Failed, Listener, MemoryClock, NoDisks, NoListener, ReaderSource, Sink, Source,
    SystemClock, WriterSink,
};
use std::alloc::Global;
use std::test::Fail;
use std::thread;

/// Whether the bytes of a slice are read, and then none.
fn are_read() -> bool {
    let mut into = [0; 8];
    let mut source = ReaderSource::new(b"abc".as_slice());
    let read = [source.read(&mut into), source.read(&mut into)];
    read == [Ok(3), Ok(0)] && into.as_slice().starts_with(b"abc")
}

/// Whether bytes are written, and then none.
fn are_written(alloc: Global) -> bool {
    let mut sink = WriterSink::new(Vec::new(alloc));
    let written = [sink.write(b"xy"), sink.write(b"")];
    written == [Ok(2), Ok(0)]
}

#[test]
fn readers_and_writers_of_std_are_sources_and_sinks(rt: HostRuntime) {
    assert!(&rt; are_read());
    assert!(&rt; are_written(rt.alloc()));
    let mut input = ReaderSource::new(rt.reader());
    let _ = input.read(&mut [0; 8]);
    let mut output = WriterSink::new(std::io::writer(&rt));
    assert!(&rt; output.write(b"") == Ok(0));
}

/// Whether a clock in memory and its twin tell the same moment.
fn twins_agree() -> bool {
    let mut clock = MemoryClock::new(5, 1);
    let mut twin = clock.twin();
    clock.now() == 5 && twin.now() == 5
}

#[test]
fn the_system_clock_is_past_2020_and_stands_in_threads(rt: HostRuntime) -> Result<(), Fail> {
    assert!(rt; twins_agree());
    let mut clock = SystemClock::new(rt);
    assert!(rt; clock.now() > 1_577_836_800_000_000);
    let twin = clock.twin();
    let mut clocks = vec![in rt.alloc(); clock, twin]?;
    thread::for_each_mut(
        &rt,
        clocks.as_mut_slice(),
        2,
        &|_, each| {
            let _ = each.now();
        },
    );
    Ok(())
}

/// Whether there is no disk, and no connection for a listener nor for its twin.
fn all_fail() -> bool {
    let mut disks = NoDisks::new();
    let mut listener = NoListener::new();
    let Ok(mut twin) = listener.twin() else {
        return false;
    };
    let failed = twin.accept().is_err() && listener.listen("a", 1) == Err(Failed);
    listener.rejoin(twin);
    failed && listener.accept().is_err() && disks.open("a").is_err()
}

#[test]
fn what_is_absent_fails_and_stands_in_threads(rt: HostRuntime) -> Result<(), Fail> {
    assert!(rt; all_fail());
    let mut listeners = vec![in rt.alloc(); NoListener::new()]?;
    thread::for_each_mut(
        &rt,
        listeners.as_mut_slice(),
        1,
        &|_, each| {
            let _ = each.accept();
        },
    );
    Ok(())
}
