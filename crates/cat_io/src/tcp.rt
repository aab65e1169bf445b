//! Connections over TCP. Trusted, as `file_disk` says.

ghost use Rattle.std.specs.Prelude.{◌≡◌, [], None, false};
ghost use Rattle.std.specs.Io.{ReadsAtMost};
ghost use Rattle.cat_io.specs.Standard.{faults_of_connections, faults_of_tcp_sink, faults_of_tcp_source};

use crate::fault::{Failed, Faults, count_fault};
use crate::listener::Listener;
use crate::standard::{ReaderSource, WriterSink};
use crate::stream::{Sink, Source};
use std::alloc::{AllocError, Global};
use std::io::{self, Error};
use std::marker::Send;
use std::net::{Net, SocketAddr, TcpListener, TcpStream};
use std::sync::Arc;
use std::sync::atomic::{AtomicU64, Ordering};
use std::thread;
use std::time::{Clock, Duration};

// How often an accept is tried, and for how many milliseconds it waits before it is tried again.
const TRIES: u64 = 100;

const PAUSE: u64 = 100;

/// How long a connection may take, in seconds, each at least one.
#[derive(Clone, Copy)]
pub struct TcpLimits {
    /// How long one read or write may wait.
    pub call: u64,
    /// How long after the last write, at first after the accept, a read may still begin. So a
    /// client that sends a byte now and then holds no worker.
    pub silence: u64,
}

// What the two ends of a connection share.
#[derive(Drop)]
struct Wire {
    stream: TcpStream,
    // when the last write was done, in milliseconds of the monotonic clock
    written: AtomicU64,
}

/// Where the bytes of a connection come from. It tells nothing of them.
#[derive(Drop)]
pub struct TcpSource<R: Clock + Copy> {
    runtime: R,
    wire: Arc<Wire, Global>,
    silence: u64,
    faults: u64,
}

impl<R: Clock + Copy> TcpSource<R> {
    /// How many reads failed.
    pub fn fault_count(&self) -> u64
        ensures { result ≡ faults_of_tcp_source self.now }
    {
        self.faults
    }
}

impl<R: Clock + Copy> Source for TcpSource<R> {
    ghost left = { λ _. None };

    ghost faults = { faults_of_tcp_source };

    fn read(&mut self, into: &mut [u8]) -> Result<usize, Failed> {
        match read_in_time(&self.wire, &self.runtime, self.silence, into) {
            Ok(count) => Ok(count),
            Err(_) => Err(count_fault(&mut self.faults)),
        }
    }
}

/// Where the bytes of a connection go. It tells nothing of them.
#[derive(Drop)]
pub struct TcpSink<R: Clock + Copy> {
    runtime: R,
    wire: Arc<Wire, Global>,
    faults: u64,
}

impl<R: Clock + Copy> Sink for TcpSink<R> {
    ghost held = { λ _. None };

    ghost faults = { faults_of_tcp_sink };

    fn write(&mut self, bytes: &[u8]) -> Result<usize, Failed> {
        match WriterSink::new(&self.wire.stream).write(bytes) {
            Ok(count) => {
                self.wire.mark(&self.runtime);
                Ok(count)
            }
            Err(_) => Err(count_fault(&mut self.faults)),
        }
    }
}

impl Wire {
    /// A write is done now. Where the clock can't be read, the time before stays.
    fn mark<R: Clock>(&self, runtime: &R) {
        if let Ok(now) = milliseconds(runtime) {
            self.written.store(now, Ordering::SeqCst);
        }
    }

    /// How many milliseconds ago the last write was done.
    fn silence<R: Clock>(&self, runtime: &R) -> io::Result<u64> {
        Ok(milliseconds(runtime)?.saturating_sub(self.written.load(Ordering::SeqCst)))
    }
}

fn milliseconds<R: Clock>(runtime: &R) -> io::Result<u64> {
    Ok(u64::try_from(runtime.monotonic()?.as_millis()).unwrap_or(u64::MAX))
}

/// Reads, if the last write was done no more than so many seconds ago.
fn read_in_time<R: Clock>(
    wire: &Wire,
    runtime: &R,
    seconds: u64,
    into: &mut [u8],
) -> Result<usize, Failed>
    ensures { ReadsAtMost result into.new }
{
    match wire.silence(runtime) {
        Ok(silence) if silence / 1_000 < seconds => ReaderSource::new(&wire.stream).read(into),
        _ => Err(Failed),
    }
}

// What a listener and its twins share: the socket, and how many connections are left, if there is
// an end.
#[derive(Drop)]
struct Shared {
    socket: TcpListener,
    left: Option<AtomicU64>,
}

impl Shared {
    /// Draws one of the connections that are left.
    fn draws(&self) -> bool {
        match &self.left {
            None => true,
            Some(left) => {
                let drawn = left.fetch_update(
                    Ordering::SeqCst,
                    Ordering::SeqCst,
                    |count| count.checked_sub(1),
                );
                drawn.is_ok()
            }
        }
    }
}

/// Connections over TCP. It tells nothing of them.
#[derive(Drop)]
pub struct TcpConnections<
    R: Net<Listener = TcpListener, Stream = TcpStream> + Clock + Copy + Send,
> {
    runtime: R,
    alloc: Global,
    limits: TcpLimits,
    shared: Option<Arc<Shared, Global>>,
    pub(crate) faults: Faults,
}

impl<R: Net<Listener = TcpListener, Stream = TcpStream> + Clock + Copy + Send> TcpConnections<R> {
    /// With no faults yet; it has no connections before `listen`.
    pub fn new(runtime: R, alloc: Global, limits: TcpLimits) -> TcpConnections<R>
        ensures { faults_of_connections result ≡ 0 }
    {
        TcpConnections {
            runtime,
            alloc,
            limits,
            shared: None,
            faults: Faults::none(),
        }
    }

    /// The address where it listens, with the port that the system chose for port 0.
    pub fn local_address(&self) -> Option<SocketAddr> {
        match &self.shared {
            Some(shared) => shared.socket.local_addr().ok(),
            None => None,
        }
    }

    /// What the system said of the first call that failed, if one did.
    pub fn first_error(&self) -> Option<Error> {
        self.faults.first
    }
}

impl<R: Net<Listener = TcpListener, Stream = TcpStream> + Clock + Copy + Send> Listener
    for TcpConnections<R> {
    type In = TcpSource<R>;

    type Out = TcpSink<R>;

    ghost faults = { faults_of_connections };

    ghost tells = { λ _. false };

    ghost listens = { λ _. None };

    ghost waiting = { λ _. [] };

    ghost returned = { λ _. [] };

    ghost rejoined = { λ _. [] };

    ghost out = { λ _. 0 };

    ghost twins = { λ _. 0 };

    ghost dealt = { λ _. [] };

    fn listen(&mut self, address: &str, connections: u64) -> Result<(), Failed> {
        match bound(&self.runtime, self.alloc, address, connections) {
            Ok(shared) => {
                self.shared = Some(shared);
                Ok(())
            }
            Err(error) => Err(self.faults.count_said(error)),
        }
    }

    fn twin(&mut self) -> Result<TcpConnections<R>, AllocError> {
        let shared = match &self.shared {
            Some(shared) => Some(Arc::try_clone(shared)?),
            None => None,
        };
        Ok(TcpConnections {
            runtime: self.runtime,
            alloc: self.alloc,
            limits: self.limits,
            shared,
            faults: Faults::none(),
        })
    }

    /// A want of descriptors or of memory, or a client that is gone, is no fault unless it lasts:
    /// for about ten seconds the accept is tried again.
    fn accept(&mut self) -> Result<Option<(TcpSource<R>, TcpSink<R>)>, Failed> {
        let Some(shared) = &self.shared else {
            return Ok(None);
        };
        if !shared.draws() {
            return Ok(None);
        }
        match next_ends(self.runtime, self.alloc, &shared.socket, self.limits) {
            Ok(ends) => Ok(Some(ends)),
            Err(error) => Err(self.faults.count_said(error)),
        }
    }

    /// The connection is closed.
    fn back(&mut self, _input: TcpSource<R>, _output: TcpSink<R>) {}

    fn rejoin(&mut self, twin: TcpConnections<R>) {
        if let Some(error) = twin.faults.first {
            self.faults.keep(error);
        }
        self.faults.count_more(twin.faults.count);
    }
}

// Binds the address. The system may give it again at once after a restart.
fn bound<R: Net<Listener = TcpListener, Stream = TcpStream>>(
    runtime: &R,
    alloc: Global,
    address: &str,
    connections: u64,
) -> io::Result<Arc<Shared, Global>> {
    let socket = TcpListener::bind(runtime, address)?;
    let left = if connections == 0 {
        None
    } else {
        Some(AtomicU64::new(connections))
    };
    Ok(Arc::new(alloc, Shared { socket, left })?)
}

// The ends of the next connection, tried again after a pause while there are tries.
fn next_ends<R: Clock + Copy>(
    runtime: R,
    alloc: Global,
    socket: &TcpListener,
    limits: TcpLimits,
) -> io::Result<(TcpSource<R>, TcpSink<R>)> {
    for _ in 1..TRIES {
        match ends(runtime, alloc, socket, limits) {
            Ok(ends) => return Ok(ends),
            Err(_) => thread::sleep(&runtime, Duration::from_millis(PAUSE)),
        }
    }
    ends(runtime, alloc, socket, limits)
}

// The ends of the next connection, without delay of small writes.
fn ends<R: Clock + Copy>(
    runtime: R,
    alloc: Global,
    socket: &TcpListener,
    limits: TcpLimits,
) -> io::Result<(TcpSource<R>, TcpSink<R>)> {
    let (stream, _) = socket.accept()?;
    let limit = Duration::from_secs(limits.call);
    stream.set_nodelay(true)?;
    stream.set_read_timeout(Some(limit))?;
    stream.set_write_timeout(Some(limit))?;
    let written = AtomicU64::new(milliseconds(&runtime)?);
    let wire = Arc::new(alloc, Wire { stream, written })?;
    let other = Arc::try_clone(&wire)?;
    let source = TcpSource {
        runtime,
        wire,
        silence: limits.silence,
        faults: 0,
    };
    let sink = TcpSink {
        runtime,
        wire: other,
        faults: 0,
    };
    Ok((source, sink))
}
