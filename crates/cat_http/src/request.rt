ghost use Rattle.std.specs.Prelude.{◌≡◌, length};
ghost use Rattle.httparse.specs.Spans.{IsRequestWithin};
ghost use Rattle.cat_http.specs.Message.{message_at};
ghost use Rattle.std.specs.Option.{option_copied};
ghost use Rattle.cat_http.specs.Fields.{first_value, has_field, is_encoded, closes};

use crate::fields::{first_value, has_field, is_encoded};
use http1::fields::KnownFields;
use httparse::spans::{HeaderSpan, RequestSpans};
use std::marker::Model;

/// A request, by slices of the buffer that it lies in.
#[derive(Drop)]
pub struct Request<'b> {
    bytes: &'b [u8],
    headers: &'b [HeaderSpan],
    head: RequestSpans,
}

impl<'b> Model for Request<'b> {
    ghost use Rattle.cat_http.specs.Message.{Message};

    ghost Value = { Message };

    ghost use Rattle.cat_http.specs.Request.{shown, IsShown};

    ghost view = { shown };

    ghost invariant = { IsShown };
}

impl<'b> Request<'b> {
    /// The method's bytes, whose letters' case counts.
    pub fn method(&self) -> &'b [u8]
        ensures { result.now ≡ self.now.method }
    {
        self.head.method.of(self.bytes)
    }

    /// The target as it was sent: UTF-8, with its escapes.
    pub fn target(&self) -> &'b [u8]
        ensures { result.now ≡ self.now.target }
    {
        self.head.path.of(self.bytes)
    }

    /// 0 for HTTP/1.0, and 1 for HTTP/1.1.
    pub fn minor(&self) -> u8
        ensures { result ≡ self.now.minor }
    {
        self.head.version
    }

    /// The body, without the lines of its chunks.
    pub fn body(&self) -> &'b [u8]
        ensures { result.now ≡ self.now.body }
    {
        &self.bytes[self.head.len..]
    }

    /// The value of the first field with the name, in any case.
    pub fn field(&self, name: &[u8]) -> Option<&'b [u8]>
        ensures { option_copied result ≡ first_value name.now self.now.fields }
    {
        first_value(self.bytes, self.headers, name)
    }

    /// Whether a field has the name, in any case.
    pub fn has_field(&self, name: &[u8]) -> bool
        ensures { result ≡ has_field name.now self.now.fields }
    {
        has_field(self.bytes, self.headers, name)
    }

    /// Whether a `Content-Encoding` other than `identity` is named; an empty value is another one.
    pub fn is_encoded(&self) -> bool
        ensures { result ≡ is_encoded self.now.fields }
    {
        is_encoded(self.bytes, self.headers)
    }

    /// Whether the session ends after the reply: for HTTP/1.0, and where `close` is one of the
    /// elements of a `Connection` field, in any case.
    #[tactic(auto, unfolding(http1::specs::Fields::known_fields))]
    pub fn closes(&self) -> bool
        ensures { result ≡ closes self.now.minor self.now.fields }
    {
        self.head.version == 0 || KnownFields::from_spans(self.bytes, self.headers).close
    }
}

/// The request whose spans these are.
pub(crate) fn show<'b>(
    bytes: &'b [u8],
    headers: &'b [HeaderSpan],
    head: RequestSpans,
) -> Request<'b>
    requires { IsRequestWithin bytes.now headers.now head }
    ensures { result ≡ message_at bytes.now headers.now head (length bytes.now) }
{
    Request {
        bytes,
        headers: &headers[..head.headers],
        head,
    }
}
