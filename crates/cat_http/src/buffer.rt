ghost use Rattle.std.specs.Prelude.{
  ◌≡◌,
  ◌≢◌,
  ◌+◌,
  ◌-◌,
  ◌<◌,
  ◌≤◌,
  [],
  IfOk,
  length,
  take,
  slice_range,
  vec_capacity,
};
ghost use Rattle.std.specs.Io.KnownBytes.{IsAtEnd};
ghost use Rattle.cat_io.specs.Causes.{Rose};
ghost use Rattle.cat_http.specs.Next.{HoldsRequest};
ghost use Rattle.cat_http.specs.Outcome.{OutcomeFits, OutcomeOf};
ghost use Rattle.cat_http.specs.Reading.{IncomingOf};
ghost use Rattle.cat_http.specs.Window.{window};

use crate::next::{BUFFER_LEN, Outcome, read_next};
use crate::request::{Request, show};
use cat_io::Source;
use httparse::spans::{EMPTY_HEADER_SPAN, HeaderSpan, RequestSpans, Span};
use std::alloc::{AllocError, Global};
use std::marker::Model;

// How far behind the front of a buffer's bytes its window may begin.
const SLACK: usize = 65536;

// How many bytes a buffer shows at first. The room for more is there, and is filled with zeros
// when a request needs it.
const FIRST_LEN: usize = 131072;

/// Room for the largest request, and for what was read past it.
// A request is read into the window of the bytes from `base` on; the other places count from
// there.
#[derive(Drop)]
pub struct Buffer {
    bytes: Vec<u8>,
    base: usize,
    headers: Vec<HeaderSpan>,
    head: RequestSpans,
    stop: usize,
    start: usize,
    end: usize,
}

impl Model for Buffer {
    ghost use Rattle.cat_http.specs.Message.{Buffered};

    ghost Value = { Buffered };

    ghost use Rattle.cat_http.specs.Buffer.{held, IsBuffer};

    ghost view = { held };

    ghost invariant = { IsBuffer };
}

const NO_HEAD: RequestSpans = RequestSpans {
    method: Span { start: 0, end: 0 },
    path: Span { start: 0, end: 0 },
    version: 0,
    headers: 0,
    len: 0,
};

impl Buffer {
    /// A buffer with nothing in it. All the memory that reading needs is taken here.
    pub fn new(alloc: Global) -> Result<Buffer, AllocError>
        ensures { IfOk result (λ b. b.unread ≡ []) }
    {
        let mut bytes = Vec::with_capacity(alloc, BUFFER_LEN + SLACK)?;
        bytes.resize(FIRST_LEN, 0u8)?;
        let mut headers = Vec::with_capacity(alloc, 64)?;
        headers.resize(64, EMPTY_HEADER_SPAN)?;
        Ok(Buffer {
            bytes,
            base: 0,
            headers,
            head: NO_HEAD,
            stop: 0,
            start: 0,
            end: 0,
        })
    }

    /// The request that `read_request` answered last.
    pub fn request(&self) -> Request<'_>
        ensures { result ≡ self.now.message }
    {
        show(
            &self.bytes.as_slice()[self.base..self.base + self.stop],
            self.headers.as_slice(),
            self.head,
        )
    }
}

/// What reading a request gave. Only after `Request` are the buffer and the source fit to go on.
#[derive(Clone, Copy, Debug, PartialEq, Eq)]
pub enum Incoming {
    /// The buffer shows the request, and holds what was read past it.
    Request,
    /// The source ended, with nothing or only empty lines left.
    End,
    /// Something is there that is no request within the limits of a head: 16,384 bytes, the empty
    /// lines before it included, and 64 fields.
    BadHead,
    /// The body has more than 1,048,576 bytes, or more than 2,097,152 raw bytes of chunks.
    TooLarge,
    /// A read failed, and what had come by then is no whole request.
    ReadFault,
}

// Where the next window begins, whose first bytes are the unread ones of this. They are moved only
// where it would begin past the slack: a pass over them is made once in 65,536 bytes that are done
// with, and not for each request.
fn advance(bytes: &mut Vec<u8>, base: usize, start: usize, end: usize) -> usize
    requires base { base ≤ 65536 }
    requires order { start ≤ end }
    requires within { base + end ≤ length bytes.old.items }
    ensures room { length bytes.new.items ≡ length bytes.old.items }
    ensures capacity { vec_capacity bytes.new ≡ vec_capacity bytes.old }
    ensures base { result ≤ 65536 }
    ensures within { result + (end - start) ≤ length bytes.new.items }
    ensures front { take (end - start) (window bytes.new.items result)
        ≡ slice_range (window bytes.old.items base) start end }
{
    if base + start <= SLACK {
        return base + start;
    }
    bytes
        .as_mut_slice()
        .copy_within(base + start..base + end, 0);
    0
}

// Shows all the room that there is.
fn widen(bytes: &mut Vec<u8>)
    requires few { length bytes.old.items ≤ 2179074 }
    requires capacity { 2179074 ≤ vec_capacity bytes.old }
    ensures room { length bytes.new.items ≡ 2179074 }
    ensures capacity { 2179074 ≤ vec_capacity bytes.new }
    ensures front { take (length bytes.old.items) bytes.new.items ≡ bytes.old.items }
{
    if bytes.resize(BUFFER_LEN + SLACK, 0u8).is_err() {
        unreachable!()
    }
}

// Reads until the window at `base` begins with a request, or has no room for it.
fn read_here<S: Source>(
    source: &mut S,
    bytes: &mut Vec<u8>,
    base: usize,
    headers: &mut [HeaderSpan],
    end: &mut usize,
) -> Outcome
    requires room { 131072 ≤ length bytes.old.items }
    requires base { base ≤ 65536 }
    requires filled { base + end.old ≤ length bytes.old.items }
    requires slots { length headers.old ≡ 64 }
    ensures room { length bytes.new.items ≡ length bytes.old.items }
    ensures capacity { vec_capacity bytes.new ≡ vec_capacity bytes.old }
    ensures within { base + end.new ≤ length bytes.new.items }
    ensures fits { OutcomeFits result (window bytes.new.items base) headers.new end.new }
    ensures is { OutcomeOf result (S.left source.old) (S.left source.new)
        (take end.old (window bytes.old.items base)) (window bytes.new.items base) headers.new
        end.new }
    ensures few { result ≡ Outcome.NoRoom → length bytes.old.items < base + 2113538 }
    ensures still { result ≡ Outcome.NoRoom
        → HoldsRequest (take end.old (window bytes.old.items base))
        → take end.new (window bytes.new.items base) ≡ take end.old (window bytes.old.items base) }
    ensures ends { result ≡ Outcome.End → IsAtEnd (S.left source.new) }
    ensures fault { result ≡ Outcome.Fault → Rose (S.faults source.old) (S.faults source.new) }
    ensures later { S.faults source.old ≤ S.faults source.new }
    ensures stays { result ≢ Outcome.Fault → S.faults source.new ≡ S.faults source.old }
    ensures waits { HoldsRequest (take end.old (window bytes.old.items base))
        → source.new ≡ source.old }
{
    let len = bytes.len();
    read_next(source, &mut bytes.as_mut_slice()[base..len], headers, end)
}

// Reads until the window at `base` begins with a request.
fn read_window<S: Source>(
    source: &mut S,
    bytes: &mut Vec<u8>,
    base: usize,
    headers: &mut [HeaderSpan],
    end: &mut usize,
) -> Outcome
    requires room { 131072 ≤ length bytes.old.items }
    requires capacity { 2179074 ≤ vec_capacity bytes.old }
    requires base { base ≤ 65536 }
    requires filled { base + end.old ≤ length bytes.old.items }
    requires slots { length headers.old ≡ 64 }
    ensures room { 131072 ≤ length bytes.new.items }
    ensures capacity { 2179074 ≤ vec_capacity bytes.new }
    ensures within { base + end.new ≤ length bytes.new.items }
    ensures fits { OutcomeFits result (window bytes.new.items base) headers.new end.new }
    ensures is { OutcomeOf result (S.left source.old) (S.left source.new)
        (take end.old (window bytes.old.items base)) (window bytes.new.items base) headers.new
        end.new }
    ensures answers { result ≢ Outcome.NoRoom }
    ensures ends { result ≡ Outcome.End → IsAtEnd (S.left source.new) }
    ensures fault { result ≡ Outcome.Fault → Rose (S.faults source.old) (S.faults source.new) }
    ensures later { S.faults source.old ≤ S.faults source.new }
    ensures stays { result ≢ Outcome.Fault → S.faults source.new ≡ S.faults source.old }
    ensures waits { HoldsRequest (take end.old (window bytes.old.items base))
        → source.new ≡ source.old }
{
    match read_here(source, bytes, base, headers, end) {
        Outcome::NoRoom => {}
        other => return other,
    }
    widen(bytes);
    read_here(source, bytes, base, headers, end)
}

/// Reads the next request into the buffer. It takes no memory.
pub fn read_request<S: Source>(source: &mut S, buffer: &mut Buffer) -> Incoming
    // The answer is that of the bytes unread and the bytes left, in whatever pieces they come. A
    // read that fails leaves only a request that was cut: as any read may fail, none follows a
    // whole one.
    ensures is { IncomingOf result (S.left source.old) buffer.old (S.left source.new) buffer.new }
    ensures ends { result ≡ Incoming.End → IsAtEnd (S.left source.new) }
    ensures fault { result ≡ Incoming.ReadFault → Rose (S.faults source.old) (S.faults source.new) }
    ensures later { S.faults source.old ≤ S.faults source.new }
    ensures stays { result ≢ Incoming.ReadFault → S.faults source.new ≡ S.faults source.old }
    // Where the bytes that are held begin with a request, the source is not read.
    ensures waits { HoldsRequest buffer.old.unread → source.new ≡ source.old }
{
    let unread = buffer.end - buffer.start;
    let base = advance(&mut buffer.bytes, buffer.base, buffer.start, buffer.end);
    buffer.base = base;
    buffer.head = NO_HEAD;
    buffer.stop = 0;
    buffer.start = 0;
    let mut end = unread;
    let outcome = read_window(
        source,
        &mut buffer.bytes,
        base,
        buffer.headers.as_mut_slice(),
        &mut end,
    );
    buffer.end = end;
    match outcome {
        Outcome::Request(head, stop, next) => {
            buffer.head = head;
            buffer.stop = stop;
            buffer.start = next;
            Incoming::Request
        }
        Outcome::End => Incoming::End,
        Outcome::Malformed => Incoming::BadHead,
        Outcome::TooLarge => Incoming::TooLarge,
        Outcome::NoRoom => unreachable!(),
        Outcome::Fault => Incoming::ReadFault,
    }
}
