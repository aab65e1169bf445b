ghost use Rattle.std.specs.Prelude.{◌≡◌, false, ◌<◌, ◌≤◌, IsTrue, length, map, All};
ghost use Rattle.std.specs.List.{list_all};
ghost use Rattle.std.specs.Char.{is_ascii_digit};
ghost use Rattle.std.specs.Str.Parse.{digits_value};
ghost use Rattle.std.specs.Option.{option_copied};
ghost use Rattle.httparse.specs.Spans.{IsHeaderWithin, header_bytes};
ghost use Rattle.cat_http.specs.Fields.{is_named, has_field, first_value, is_repeated, all_have, is_number, within_limit, body_length, IfBytes, is_chunked, kind_from, is_identity, names_encoding, is_encoded};

use httparse::spans::HeaderSpan;

/// What a head says of its body.
#[derive(Clone, Copy)]
pub enum BodyLength {
    Bytes(usize),
    Chunked,
    /// The head doesn't say a length.
    Malformed,
    /// Above the limit.
    Excess,
}

/// Whether the field has the name, in any case.
fn is_named(bytes: &[u8], header: &HeaderSpan, name: &[u8]) -> bool
    requires { IsHeaderWithin (length bytes.now) header.now }
    ensures { result ≡ is_named name.now (header_bytes bytes.now header.now) }
{
    header.name.of(bytes).eq_ignore_ascii_case(name)
}

/// Whether a field has the name, in any case.
pub fn has_field(bytes: &[u8], headers: &[HeaderSpan], name: &[u8]) -> bool
    requires { All (IsHeaderWithin (length bytes.now)) headers.now }
    ensures { result ≡ has_field name.now (map (header_bytes bytes.now) headers.now) }
{
    for header in headers {
        if is_named(bytes, header, name) {
            return true;
        }
    }
    false
}

/// The value of the first field with the name, in any case.
pub fn first_value<'b>(bytes: &'b [u8], headers: &[HeaderSpan], name: &[u8]) -> Option<&'b [u8]>
    requires { All (IsHeaderWithin (length bytes.now)) headers.now }
    ensures { option_copied result
        ≡ first_value name.now (map (header_bytes bytes.now) headers.now) }
{
    for header in headers {
        if is_named(bytes, header, name) {
            return Some(header.value.of(bytes));
        }
    }
    None
}

/// Whether more than one field has the name, in any case.
fn is_repeated(bytes: &[u8], headers: &[HeaderSpan], name: &[u8]) -> bool
    requires { All (IsHeaderWithin (length bytes.now)) headers.now }
    ensures { result ≡ is_repeated false name.now (map (header_bytes bytes.now) headers.now) }
{
    let mut came = false;
    for header in headers {
        if is_named(bytes, header, name) {
            if came {
                return true;
            }
            came = true;
        }
    }
    false
}

/// Whether each field with the name has the value.
fn all_have(bytes: &[u8], headers: &[HeaderSpan], name: &[u8], value: &[u8]) -> bool
    requires { All (IsHeaderWithin (length bytes.now)) headers.now }
    ensures { result ≡ all_have name.now value.now (map (header_bytes bytes.now) headers.now) }
{
    for header in headers {
        if is_named(bytes, header, name) && header.value.of(bytes) != value {
            return false;
        }
    }
    true
}

/// How many bytes a body may have.
pub const BODY_LIMIT: usize = 1048576;

fn are_digits(text: &[u8]) -> bool
    ensures { result ≡ list_all is_ascii_digit text.now }
{
    text.iter().all(|byte| byte.is_ascii_digit())
}

/// Whether the text is a number in digits.
fn is_number(text: &[u8]) -> bool
    ensures { result ≡ is_number text.now }
{
    0 < text.len() && are_digits(text)
}

/// The number that the digits say, if it is within the limit.
fn limited_length(digits: &[u8]) -> BodyLength
    requires { IsTrue (is_number digits.now) }
    ensures value { result ≡ within_limit (digits_value 10 digits.now) }
    ensures limit { IfBytes result (λ n. n ≤ 1048576) }
{
    let mut length: usize = 0;
    for digit in digits {
        length = length * 10 + usize::from(*digit - b'0');
        if length > BODY_LIMIT {
            return BodyLength::Excess;
        }
    }
    BodyLength::Bytes(length)
}

fn is_chunked(value: &[u8]) -> bool
    ensures { result ≡ is_chunked value.now }
{
    value.eq_ignore_ascii_case(b"chunked")
}

/// What a transfer encoding says of the body.
fn chunked_kind(bytes: &[u8], headers: &[HeaderSpan], value: &[u8]) -> BodyLength
    requires { All (IsHeaderWithin (length bytes.now)) headers.now }
    ensures { result ≡ kind_from (Some value.now) (map (header_bytes bytes.now) headers.now) }
{
    if !has_field(bytes, headers, b"content-length")
        && is_chunked(value)
        && !is_repeated(bytes, headers, b"transfer-encoding")
    {
        BodyLength::Chunked
    } else {
        BodyLength::Malformed
    }
}

/// What the fields of a head say of its body.
#[tactic(auto, unfolding(crate::specs::Fields::body_length))]
pub fn body_length(bytes: &[u8], headers: &[HeaderSpan]) -> BodyLength
    requires { All (IsHeaderWithin (length bytes.now)) headers.now }
    ensures value { result ≡ body_length (map (header_bytes bytes.now) headers.now) }
    ensures limit { IfBytes result (λ n. n ≤ 1048576) }
{
    if let Some(value) = first_value(bytes, headers, b"transfer-encoding") {
        return chunked_kind(bytes, headers, value);
    }
    match first_value(bytes, headers, b"content-length") {
        None => BodyLength::Bytes(0),
        Some(value) => {
            if is_number(value) && all_have(bytes, headers, b"content-length", value) {
                limited_length(value)
            } else {
                BodyLength::Malformed
            }
        }
    }
}

fn is_identity(value: &[u8]) -> bool
    ensures { result ≡ is_identity value.now }
{
    value.eq_ignore_ascii_case(b"identity")
}

fn names_encoding(bytes: &[u8], header: &HeaderSpan) -> bool
    requires { IsHeaderWithin (length bytes.now) header.now }
    ensures { result ≡ names_encoding (header_bytes bytes.now header.now) }
{
    is_named(bytes, header, b"content-encoding") && !is_identity(header.value.of(bytes))
}

/// Whether a field names an encoding of the body that isn't `identity`, in any case.
pub fn is_encoded(bytes: &[u8], headers: &[HeaderSpan]) -> bool
    requires { All (IsHeaderWithin (length bytes.now)) headers.now }
    ensures { result ≡ is_encoded (map (header_bytes bytes.now) headers.now) }
{
    for header in headers {
        if names_encoding(bytes, header) {
            return true;
        }
    }
    false
}
