ghost use Rattle.std.specs.Prelude.{◌≡◌, ◌≢◌, ◌<◌, ◌≤◌, length, take};
ghost use Rattle.std.specs.Io.KnownBytes.{IsAtEnd};
ghost use Rattle.cat_io.specs.Causes.{Rose};
ghost use Rattle.httparse.specs.Spans.{IsRequestWithin};
ghost use Rattle.cat_http.specs.Head.{FoundHead};
ghost use Rattle.cat_http.specs.Next.{HoldsRequest};
ghost use Rattle.cat_http.specs.Outcome.{OutcomeFits, OutcomeOf};

use crate::chunked::{ChunkedRead, RAW_LIMIT, read_chunks};
use crate::fields::{BodyLength, body_length};
use crate::fill::{Filled, read_until};
use crate::head::{HeadRead, read_head};
use cat_io::Source;
use httparse::spans::{HeaderSpan, RequestSpans};

/// How many bytes are enough for each request: those of a head and of a body in chunks, and two
/// more.
pub const BUFFER_LEN: usize = 2113538;

/// What reading a request gave.
#[derive(Clone, Copy)]
pub enum Outcome {
    /// The head, where the body ends, and where the next bytes stand.
    Request(RequestSpans, usize, usize),
    End,
    Malformed,
    TooLarge,
    /// The request has a head, and needs more room than there is.
    NoRoom,
    Fault,
}

/// Reads until the bytes begin with a request.
pub fn read_next<S: Source>(
    source: &mut S,
    bytes: &mut [u8],
    headers: &mut [HeaderSpan],
    end: &mut usize,
) -> Outcome
    requires room { 16384 < length bytes.old }
    requires filled { end.old ≤ length bytes.old }
    requires slots { length headers.old ≡ 64 }
    ensures within { end.new ≤ length bytes.new }
    ensures fits { OutcomeFits result bytes.new headers.new end.new }
    ensures is { OutcomeOf result (S.left source.old) (S.left source.new) (take end.old bytes.old)
        bytes.new headers.new end.new }
    ensures ends { result ≡ Outcome.End → IsAtEnd (S.left source.new) }
    ensures fault { result ≡ Outcome.Fault → Rose (S.faults source.old) (S.faults source.new) }
    ensures later { S.faults source.old ≤ S.faults source.new }
    ensures stays { result ≢ Outcome.Fault → S.faults source.new ≡ S.faults source.old }
    ensures room { result ≡ Outcome.NoRoom → length bytes.old < 2113538 }
    ensures still { result ≡ Outcome.NoRoom → HoldsRequest (take end.old bytes.old)
        → take end.new bytes.new ≡ take end.old bytes.old }
    ensures waits { HoldsRequest (take end.old bytes.old) → source.new ≡ source.old }
{
    match read_head(source, bytes, headers, end) {
        HeadRead::Found(head) => read_body(source, bytes, headers, end, head),
        HeadRead::End => Outcome::End,
        HeadRead::Malformed => Outcome::Malformed,
        HeadRead::Fault => Outcome::Fault,
    }
}

// Reads until the body is there that the head states.
fn read_body<S: Source>(
    source: &mut S,
    bytes: &mut [u8],
    headers: &[HeaderSpan],
    end: &mut usize,
    head: RequestSpans,
) -> Outcome
    requires filled { end.old ≤ length bytes.old }
    requires slots { length headers.now ≡ 64 }
    requires short { head.len ≤ 16384 }
    requires found_within { IsRequestWithin (take end.old bytes.old) headers.now head }
    requires found { FoundHead (take end.old bytes.old) headers.now head }
    ensures within { end.new ≤ length bytes.new }
    ensures fits { OutcomeFits result bytes.new headers.now end.new }
    ensures is { OutcomeOf result (S.left source.old) (S.left source.new) (take end.old bytes.old)
        bytes.new headers.now end.new }
    ensures goes_on { result ≢ Outcome.End }
    ensures fault { result ≡ Outcome.Fault → Rose (S.faults source.old) (S.faults source.new) }
    ensures later { S.faults source.old ≤ S.faults source.new }
    ensures stays { result ≢ Outcome.Fault → S.faults source.new ≡ S.faults source.old }
    ensures room { result ≡ Outcome.NoRoom → length bytes.old < 2113538 }
    ensures still { result ≡ Outcome.NoRoom → (end.new ≡ end.old) × (bytes.new ≡ bytes.old) }
    ensures waits { HoldsRequest (take end.old bytes.old) → source.new ≡ source.old }
{
    let body = match body_length(&bytes[..*end], &headers[..head.headers]) {
        BodyLength::Bytes(count) => count,
        BodyLength::Chunked => {
            if bytes.len() <= head.len + RAW_LIMIT {
                return Outcome::NoRoom;
            }
            return match read_chunks(source, bytes, end, head.len) {
                ChunkedRead::Whole(kept, at) => Outcome::Request(head, head.len + kept, at),
                ChunkedRead::Malformed => Outcome::Malformed,
                ChunkedRead::TooLarge => Outcome::TooLarge,
                ChunkedRead::Fault => Outcome::Fault,
            };
        }
        BodyLength::Malformed => return Outcome::Malformed,
        BodyLength::Excess => return Outcome::TooLarge,
    };
    let stop = head.len + body;
    if stop > bytes.len() {
        return Outcome::NoRoom;
    }
    match read_until(source, bytes, end, stop) {
        Filled::More => Outcome::Request(head, stop, stop),
        Filled::End => Outcome::Malformed,
        Filled::Fault => Outcome::Fault,
    }
}
