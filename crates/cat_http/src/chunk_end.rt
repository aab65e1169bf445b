ghost use Rattle.std.specs.Prelude.{◌≡◌, ◌≢◌, ◌+◌, ◌^◌, ◌<◌, ◌≤◌, min, length, take, None};
ghost use Rattle.cat_io.specs.Causes.{Rose};
ghost use Rattle.cat_http.specs.Streams.{KeepsStream};
ghost use Rattle.cat_http.specs.ChunkedRead.{EndIs};

use crate::fill::{Filled, read_until};
use cat_io::Source;

/// What reading the end of a chunk's data gave.
#[derive(Clone, Copy)]
pub enum EndRead {
    Whole,
    Cut,
    Malformed,
    TooLarge,
    Fault,
}

/// Reads up to `at`, and CR LF there, all of it before `limit`.
pub fn read_chunk_end<S: Source>(
    source: &mut S,
    bytes: &mut [u8],
    end: &mut usize,
    at: usize,
    limit: usize,
) -> EndRead
    requires filled { end.old ≤ length bytes.old }
    requires few { at + 2 < 2 ^ 64 }
    requires room { limit < length bytes.old }
    ensures grows { end.old ≤ end.new }
    ensures within { end.new ≤ length bytes.new }
    ensures is { EndIs result bytes.new at end.new limit (S.left source.new) }
    ensures fault { result ≡ EndRead.Fault → Rose (S.faults source.old) (S.faults source.new) }
    ensures later { S.faults source.old ≤ S.faults source.new }
    ensures stays { result ≢ EndRead.Fault → S.faults source.new ≡ S.faults source.old }
    ensures front { take end.old bytes.new ≡ take end.old bytes.old }
    ensures waits { at + 2 ≤ end.old
        → (source.new ≡ source.old) × (end.new ≡ end.old) × (bytes.new ≡ bytes.old) }
    ensures stream { KeepsStream (S.left source.old) (S.left source.new) (take end.old bytes.old)
        (take end.new bytes.new) }
{
    match read_until(source, bytes, end, (at + 2).min(limit + 1)) {
        Filled::More => end_in(&bytes[..*end], at, limit),
        Filled::End => EndRead::Cut,
        Filled::Fault => EndRead::Fault,
    }
}

/// Whether CR LF stands at `at`, where the bytes that are needed for that are there.
fn end_in(bytes: &[u8], at: usize, limit: usize) -> EndRead
    requires few { at + 2 < 2 ^ 64 }
    requires enough { min (at + 2) (limit + 1) ≤ length bytes.now }
    ensures is { EndIs result bytes.now at (length bytes.now) limit None }
    ensures no_fault { result ≢ EndRead.Fault }
{
    if at < limit && bytes[at] != b'\r' {
        return EndRead::Malformed;
    }
    if at + 2 > limit {
        return EndRead::TooLarge;
    }
    if bytes[at + 1] != b'\n' {
        return EndRead::Malformed;
    }
    EndRead::Whole
}
