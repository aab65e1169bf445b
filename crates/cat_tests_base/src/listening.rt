//! Listeners with twins: one in memory, and one over TCP with both ends in one process.

use cat_io::{
    ConnectionList, Failed, Listener, MemoryListener, MemorySink, MemorySource, Sink, Source,
    TcpConnections, TcpLimits, TcpSink, TcpSource,
};
use std::alloc::{AllocError, Global};
use std::io::{self, Read, Write};
use std::marker::Send;
use std::net::TcpStream;
use std::test::Fail;
use std::thread;
use std::time::{Clock, Duration};

/// A connection that gives a byte and has room for one.
fn connection(alloc: Global, byte: u8) -> Result<(MemorySource, MemorySink), AllocError> {
    let source = MemorySource::new(vec![in alloc; byte]?, 1, Vec::new(alloc));
    Ok((source, MemorySink::new(alloc, 1, Vec::new(alloc))?))
}

/// A listener with two connections and lists for two twins. Its fourth and its sixth call fail, and
/// the second call of the second twin.
fn in_memory(alloc: Global) -> Result<MemoryListener, AllocError> {
    let own = ConnectionList {
        connections: vec![in alloc; connection(alloc, b'a')?, connection(alloc, b'b')?]?,
        failing: vec![in alloc; 4, 6]?,
    };
    let first = ConnectionList {
        connections: vec![in alloc; connection(alloc, b'c')?, connection(alloc, b'd')?]?,
        failing: Vec::new(alloc),
    };
    let second = ConnectionList {
        connections: vec![in alloc; connection(alloc, b'e')?]?,
        failing: vec![in alloc; 2]?,
    };
    MemoryListener::new(alloc, own, vec![in alloc; first, second]?)
}

/// Gives a byte of each connection back, until there is none or the listener fails.
fn echo_all<L: Listener>(listener: &mut L) -> Result<(), Failed> {
    for _ in 0..u64::MAX {
        let Some((mut input, mut output)) = listener.accept()? else {
            break;
        };
        let mut byte = [0];
        let _ = input.read(&mut byte);
        let _ = output.write(&byte);
        listener.back(input, output);
    }
    Ok(())
}

/// Whether each call does what it is to do. The last two accepts find one connection, and none.
fn do_as_listed(listener: &mut MemoryListener) -> bool {
    let listened = listener.listen("127.0.0.1:80", 7) == Ok(());
    let (Ok(mut first), Ok(mut second)) = (listener.twin(), listener.twin()) else {
        return false;
    };
    let refused = listener.twin().is_err();
    let twins = [echo_all(&mut first), echo_all(&mut second)];
    let own = [echo_all(listener), echo_all(listener)];
    listener.rejoin(first);
    listener.rejoin(second);
    listened && refused && twins == [Ok(()), Err(Failed)] && own == [Err(Failed), Ok(())]
}

/// Whether the connections gave these bytes back, one each.
fn gave_back(connections: &[(MemorySource, MemorySink)], bytes: &[u8]) -> bool {
    let mut ends = connections.iter().zip(bytes);
    connections.len() == bytes.len()
        && ends.all(|((_, output), byte)| output.bytes() == [*byte].as_slice())
}

/// Whether all came back to their places, and the faults and the address are told.
fn all_are_back(listener: &MemoryListener) -> bool {
    let Some((address, 7)) = listener.heard() else {
        return false;
    };
    let [first, second] = listener.rejoined() else {
        return false;
    };
    address == b"127.0.0.1:80".as_slice()
        && listener.fault_count() == 2
        && gave_back(listener.returned(), b"ab")
        && gave_back(first, b"cd")
        && gave_back(second, b"e")
}

/// Whether a call that is to fail tells its address, and one with a long address fails and tells
/// none.
fn fails_to_listen(alloc: Global) -> Result<bool, AllocError> {
    let own = ConnectionList {
        connections: Vec::new(alloc),
        failing: vec![in alloc; 1]?,
    };
    let mut listener = MemoryListener::new(alloc, own, Vec::new(alloc))?;
    let failed = listener.listen("a:1", 0) == Err(Failed);
    let told = listener.heard() == Some((b"a:1".as_slice(), 0));
    let long = [b'a'; 513];
    let refused = std::str::from_utf8(&long).is_ok_and(|address| listener
        .listen(address, 1)
        .is_err());
    Ok(failed && told && refused && listener.heard().is_none() && listener.fault_count() == 2)
}

#[test]
fn connections_in_memory_come_back_to_their_places(rt: HostRuntime) -> Result<(), Fail> {
    let alloc = rt.alloc();
    let mut listener = in_memory(alloc)?;
    assert!(rt; do_as_listed(&mut listener));
    assert!(rt; all_are_back(&listener));
    assert!(rt; fails_to_listen(alloc)?);
    Ok(())
}

/// Whether a client that sent a byte gets it back, and then finds the end.
fn is_echoed(client: &mut TcpStream, byte: u8) -> io::Result<bool> {
    let mut got = [0; 2];
    let counts = [client.read(&mut got)?, client.read(&mut [0])?];
    Ok(counts == [1, 0] && got == [byte, 0])
}

#[test]
fn twins_over_tcp_share_their_connections(rt: HostRuntime) -> Result<(), Fail> {
    let limits = TcpLimits {
        call: 10,
        silence: 60,
    };
    let mut listener = TcpConnections::new(rt, rt.alloc(), limits);
    assert!(rt; listener.listen("127.0.0.1:0", 2) == Ok(()));
    let address = listener.local_address().ok_or("no address")?;
    let mut first = TcpStream::connect(&rt, address)?;
    let mut second = TcpStream::connect(&rt, address)?;
    first.write_all(b"a")?;
    second.write_all(b"b")?;
    let twin = listener.twin()?;
    let mut twins = vec![in rt.alloc(); listener, twin]?;
    thread::for_each_mut(
        &rt,
        twins.as_mut_slice(),
        2,
        &|_, each| {
            let _ = echo_all(each);
        },
    );
    assert!(rt; is_echoed(&mut first, b'a')?);
    assert!(rt; is_echoed(&mut second, b'b')?);
    assert!(rt; twins[0].first_error().is_none());
    assert!(rt; twins[1].accept().is_ok_and(|ends| ends.is_none()));
    Ok(())
}

/// Whether a byte is read that came in time, none that came after a silence of a second, and again
/// one after a write; and then a read finds none within a second.
fn are_timed<R: Clock + Copy + Send>(
    rt: &R,
    input: &mut TcpSource<R>,
    output: &mut TcpSink<R>,
) -> bool {
    let mut into = [0];
    let first = input.read(&mut into);
    thread::sleep(rt, Duration::from_millis(1_100));
    let late = input.read(&mut into);
    let written = output.write(b"x");
    let second = input.read(&mut into);
    let none = input.read(&mut into);
    [first, late, written, second, none] == [Ok(1), Err(Failed), Ok(1), Ok(1), Err(Failed)]
        && into == [b'b']
        && input.fault_count() == 2
}

#[test]
fn reads_over_tcp_end_in_time(rt: HostRuntime) -> Result<(), Fail> {
    let limits = TcpLimits {
        call: 1,
        silence: 1,
    };
    let mut listener = TcpConnections::new(rt, rt.alloc(), limits);
    assert!(rt; listener.listen("no address", 1) == Err(Failed));
    assert!(rt; listener.first_error().is_some());
    assert!(rt; listener.listen("127.0.0.1:0", 1) == Ok(()));
    let address = listener.local_address().ok_or("no address")?;
    let mut client = TcpStream::connect(&rt, address)?;
    client.write_all(b"ab")?;
    let Ok(Some((mut input, mut output))) = listener.accept() else {
        panic!(rt; "a client is there");
    };
    assert!(rt; are_timed(&rt, &mut input, &mut output));
    listener.back(input, output);
    drop(client);
    Ok(())
}
