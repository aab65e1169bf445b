//! The program: the words, the real streams, files and clock, handed to `cat_cli::run`.
#![tactic(auto)]

use cat_cli::{Status, address_of, run, tell_no_memory, words_of};
use cat_io::{
    Folder, ReaderSource, SystemClock, TcpConnections, TcpLimits, WriterSink, hold_standard,
};
use std::fs::{File, Files};
use std::io::{Error, ErrorKind};
use std::net::{Net, TcpListener, TcpStream};
use std::process::ExitCode;
use std::rt::Runtime;
use std::sync::Wait;
use std::thread::Threads;
use std::{env, io};

/// How long a connection may take: 10 seconds for one read or write to wait, and 60 from a reply to
/// the last read of the next request.
const LIMITS: TcpLimits = TcpLimits {
    call: 10,
    silence: 60,
};

fn main(rt: HostRuntime) -> ExitCode {
    hold_standard(&rt);
    ExitCode::from(outcome(&rt).code())
}

fn outcome<R>(rt: &R) -> Status
where
    R: Runtime
        + Files<File = File>
        + Net<Listener = TcpListener, Stream = TcpStream>
        + AllocGlobal
        + Threads
        + Wait
        + Sync,
{
    let texts = match env::args(rt) {
        Ok(texts) => texts.collect(rt.alloc()),
        Err(error) if error.kind() == ErrorKind::OutOfMemory => return no_memory(rt),
        // A word that is no text is no command's: the program is run without words then.
        Err(_) => Ok(Vec::new(rt.alloc())),
    };
    let Ok(texts) = texts else {
        return no_memory(rt);
    };
    match words_of(rt.alloc(), &texts) {
        Ok(words) => run_with(rt, &words),
        Err(_) => no_memory(rt),
    }
}

// No memory was left for the words.
fn no_memory<R: Runtime>(rt: &R) -> Status {
    tell_no_memory(&mut WriterSink::new(io::writer(rt)))
}

fn run_with<R>(rt: &R, words: &[&str]) -> Status
where
    R: Runtime
        + Files<File = File>
        + Net<Listener = TcpListener, Stream = TcpStream>
        + AllocGlobal
        + Threads
        + Wait
        + Sync,
{
    let mut folder = Folder::new(rt, rt.alloc());
    let mut source = ReaderSource::new(rt.reader());
    let mut sink = WriterSink::new(io::writer(rt));
    let mut clock = SystemClock::new(rt);
    let mut listener = TcpConnections::new(rt, rt.alloc(), LIMITS);
    let status = run(
        rt,
        rt.alloc(),
        words,
        &mut folder,
        &mut source,
        &mut sink,
        &mut clock,
        &mut listener,
    );
    if let Some((path, error)) = folder.first_error() {
        say(rt, path, error);
    }
    if let Some(error) = listener.first_error() {
        say(
            rt,
            address_of(rt.alloc(), words).unwrap_or("listener"),
            error,
        );
    }
    status
}

// Tells what the system said of a file, or of the address. Where standard error is closed too,
// nobody is told.
fn say<R: Runtime>(rt: &R, about: &str, error: Error) {
    let _ = eprintln!(rt; "nessie: {about}: {error}");
}
