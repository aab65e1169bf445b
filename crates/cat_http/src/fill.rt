ghost use Rattle.std.specs.Prelude.{◌≡◌, ◌≢◌, ◌<◌, ◌≤◌, false, length, slice_range, take};
ghost use Rattle.cat_io.specs.Causes.{Rose};
ghost use Rattle.std.specs.Io.KnownBytes.{IsAtEnd};
ghost use Rattle.cat_http.specs.Streams.{KeepsStream};
ghost use Rattle.cat_http.specs.Lines.{has_line_feed};

use cat_io::Source;

// The longest read. What is read past a request may have to be moved later, so a long source is
// not read far ahead.
const READ_LEN: usize = 65536;

/// What one read gave.
#[derive(Clone, Copy)]
pub enum Filled {
    More,
    End,
    Fault,
}

// Reads once behind the first `end` bytes.
fn fill<S: Source>(source: &mut S, bytes: &mut [u8], end: &mut usize) -> Filled
    requires { end.old < length bytes.old }
    ensures grows { end.old ≤ end.new }
    ensures within { end.new ≤ length bytes.new }
    ensures more { result ≡ Filled.More → end.old < end.new }
    ensures ends { result ≡ Filled.End → IsAtEnd (S.left source.new) × (end.new ≡ end.old) }
    ensures fault { result ≡ Filled.Fault → Rose (S.faults source.old) (S.faults source.new) }
    ensures later { S.faults source.old ≤ S.faults source.new }
    ensures stays { result ≢ Filled.Fault → S.faults source.new ≡ S.faults source.old }
    ensures cut { result ≡ Filled.Fault → end.new ≡ end.old }
    ensures front { take end.old bytes.new ≡ take end.old bytes.old }
    ensures stream { KeepsStream (S.left source.old) (S.left source.new) (take end.old bytes.old)
        (take end.new bytes.new) }
{
    let stop = *end + (bytes.len() - *end).min(READ_LEN);
    match source.read(&mut bytes[*end..stop]) {
        Ok(0) => Filled::End,
        Ok(count) => {
            *end += count;
            Filled::More
        }
        Err(_) => Filled::Fault,
    }
}

/// Reads until there are `need` bytes.
pub fn read_until<S: Source>(
    source: &mut S,
    bytes: &mut [u8],
    end: &mut usize,
    need: usize,
) -> Filled
    requires room { need ≤ length bytes.old }
    requires filled { end.old ≤ length bytes.old }
    ensures grows { end.old ≤ end.new }
    ensures within { end.new ≤ length bytes.new }
    ensures more { result ≡ Filled.More → need ≤ end.new }
    ensures ends { result ≡ Filled.End → IsAtEnd (S.left source.new) × (end.new < need) }
    ensures fault { result ≡ Filled.Fault → Rose (S.faults source.old) (S.faults source.new) }
    ensures later { S.faults source.old ≤ S.faults source.new }
    ensures stays { result ≢ Filled.Fault → S.faults source.new ≡ S.faults source.old }
    ensures cut { result ≡ Filled.Fault → end.new < need }
    ensures front { take end.old bytes.new ≡ take end.old bytes.old }
    ensures waits { need ≤ end.old
        → (source.new ≡ source.old) × (end.new ≡ end.old) × (bytes.new ≡ bytes.old) }
    ensures stream { KeepsStream (S.left source.old) (S.left source.new) (take end.old bytes.old)
        (take end.new bytes.new) }
{
    'reads: while *end < need {
        match fill(source, bytes, end) {
            Filled::More => {}
            other => return other,
        }
    }
    Filled::More
}

/// Reads until a line feed has come, or more than `limit` bytes are there: a line that comes in
/// small pieces isn't to be parsed at each of them. The first bytes of a request come alone, so
/// that what begins as no request does is known at once.
pub fn fill_line<S: Source>(
    source: &mut S,
    bytes: &mut [u8],
    end: &mut usize,
    limit: usize,
) -> Filled
    requires some { end.old ≤ limit }
    requires room { limit < length bytes.old }
    ensures grows { end.old ≤ end.new }
    ensures within { end.new ≤ length bytes.new }
    ensures more { result ≡ Filled.More → end.old < end.new }
    ensures ends { result ≡ Filled.End → IsAtEnd (S.left source.new) × (end.new ≡ end.old) }
    ensures fault { result ≡ Filled.Fault → Rose (S.faults source.old) (S.faults source.new) }
    ensures later { S.faults source.old ≤ S.faults source.new }
    ensures stays { result ≢ Filled.Fault → S.faults source.new ≡ S.faults source.old }
    ensures cut { result ≡ Filled.Fault
        → (end.new ≤ limit) × (has_line_feed (slice_range bytes.new end.old end.new) ≡ false) }
    ensures front { take end.old bytes.new ≡ take end.old bytes.old }
    ensures stream { KeepsStream (S.left source.old) (S.left source.new) (take end.old bytes.old)
        (take end.new bytes.new) }
{
    let first = *end;
    'reads: loop {
        let before = *end;
        match fill(source, bytes, end) {
            Filled::More => {}
            Filled::End if before > first => return Filled::More,
            other => return other,
        }
        if before == 0 || *end > limit || has_line_feed(&bytes[before..*end]) {
            return Filled::More;
        }
    }
}

fn has_line_feed(bytes: &[u8]) -> bool
    ensures { result ≡ has_line_feed bytes.now }
{
    bytes.contains(&b'\n')
}
