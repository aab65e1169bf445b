ghost use Rattle.std.specs.Prelude.{◌≡◌, ◌≢◌, ◌+◌, ◌<◌, ◌≤◌, length, take, slice_range};
ghost use Rattle.cat_io.specs.Causes.{Rose};
ghost use Rattle.cat_http.specs.ChunkedRead.{AnswerOf, HoldsChunks, IfWhole};

use crate::chunk_end::{EndRead, read_chunk_end};
use crate::fields::BODY_LIMIT;
use crate::size_line::{SizeRead, read_size_line};
use cat_io::Source;

/// How many bytes a body in chunks may have, chunk lines included.
pub const RAW_LIMIT: usize = 2097152;

/// What reading a body in chunks gave.
#[derive(Clone, Copy)]
pub enum ChunkedRead {
    /// How long the body is, and where the next bytes stand.
    Whole(usize, usize),
    Malformed,
    TooLarge,
    Fault,
}

/// Reads a body in chunks from `start` on, and moves what it carries to `start`.
pub fn read_chunks<S: Source>(
    source: &mut S,
    bytes: &mut [u8],
    end: &mut usize,
    start: usize,
) -> ChunkedRead
    requires begins { start ≤ end.old }
    requires filled { end.old ≤ length bytes.old }
    requires room { start + 2097152 < length bytes.old }
    ensures within { end.new ≤ length bytes.new }
    ensures ends { IfWhole result (λ kept at. (start + kept ≤ at) × (at ≤ end.new)) }
    ensures front { take start bytes.new ≡ take start bytes.old }
    ensures waits { HoldsChunks (slice_range bytes.old start end.old) → source.new ≡ source.old }
    ensures answer { AnswerOf result (S.left source.old) (S.left source.new)
        (slice_range bytes.old start end.old) bytes.new start end.new }
    ensures fault { result ≡ ChunkedRead.Fault → Rose (S.faults source.old) (S.faults source.new) }
    ensures later { S.faults source.old ≤ S.faults source.new }
    ensures stays { result ≢ ChunkedRead.Fault → S.faults source.new ≡ S.faults source.old }
{
    let limit = start + RAW_LIMIT;
    let mut kept = 0;
    let mut at = start;
    'chunks: loop {
        let (len, size) = match read_size_line(source, bytes, end, at, limit) {
            SizeRead::Found(len, size) => (len, size),
            SizeRead::Cut => return ChunkedRead::Malformed,
            SizeRead::Malformed => return ChunkedRead::Malformed,
            SizeRead::TooLarge => return ChunkedRead::TooLarge,
            SizeRead::Fault => return ChunkedRead::Fault,
        };
        if size > (BODY_LIMIT - kept) as u64 {
            return ChunkedRead::TooLarge;
        }
        let data = at + len;
        let stop = data + size as usize;
        match read_chunk_end(source, bytes, end, stop, limit) {
            EndRead::Whole => {}
            EndRead::Cut => return ChunkedRead::Malformed,
            EndRead::Malformed => return ChunkedRead::Malformed,
            EndRead::TooLarge => return ChunkedRead::TooLarge,
            EndRead::Fault => return ChunkedRead::Fault,
        }
        at = stop + 2;
        if size == 0 {
            return ChunkedRead::Whole(kept, at);
        }
        bytes.copy_within(data..stop, start + kept);
        kept += stop - data;
    }
}
