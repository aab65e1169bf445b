ghost use Rattle.std.specs.Prelude.{◌≡◌, ◌≢◌, ◌<◌, ◌≤◌, length, take, slice_range};
ghost use Rattle.cat_io.specs.Causes.{Rose};
ghost use Rattle.cat_http.specs.Streams.{KeepsStream};
ghost use Rattle.cat_http.specs.ChunkedRead.{SizeIs, HoldsLine};

use crate::fill::{Filled, fill_line};
use cat_io::Source;
use httparse::{Status, parse_chunk_size};

/// What reading a chunk's size line gave.
#[derive(Clone, Copy)]
pub enum SizeRead {
    /// How long the line is, and the size that it says.
    Found(usize, u64),
    Cut,
    Malformed,
    TooLarge,
    Fault,
}

/// Reads until a size line stands at `at`, all of it before `limit`.
pub fn read_size_line<S: Source>(
    source: &mut S,
    bytes: &mut [u8],
    end: &mut usize,
    at: usize,
    limit: usize,
) -> SizeRead
    requires begins { at ≤ end.old }
    requires filled { end.old ≤ length bytes.old }
    requires before { at ≤ limit }
    requires room { limit < length bytes.old }
    ensures grows { end.old ≤ end.new }
    ensures within { end.new ≤ length bytes.new }
    ensures is { SizeIs result bytes.new at end.new limit (S.left source.new) }
    ensures fault { result ≡ SizeRead.Fault → Rose (S.faults source.old) (S.faults source.new) }
    ensures later { S.faults source.old ≤ S.faults source.new }
    ensures stays { result ≢ SizeRead.Fault → S.faults source.new ≡ S.faults source.old }
    ensures front { take end.old bytes.new ≡ take end.old bytes.old }
    ensures waits { HoldsLine (slice_range bytes.old at end.old)
        → (source.new ≡ source.old) × (end.new ≡ end.old) × (bytes.new ≡ bytes.old) }
    ensures stream { KeepsStream (S.left source.old) (S.left source.new) (take end.old bytes.old)
        (take end.new bytes.new) }
{
    'reads: loop {
        let seen = (*end).min(limit);
        match parse_chunk_size(&bytes[at..seen]) {
            Ok(Status::Complete((len, size))) => return SizeRead::Found(len, size),
            Ok(Status::Partial) => {}
            Err(_) => return SizeRead::Malformed,
        }
        if *end > limit {
            return SizeRead::TooLarge;
        }
        match fill_line(source, bytes, end, limit) {
            Filled::More => {}
            Filled::End => return SizeRead::Cut,
            Filled::Fault => return SizeRead::Fault,
        }
    }
}
