ghost use Rattle.std.specs.Prelude.{◌≡◌, None};
ghost use Rattle.cat_http.specs.Writing.{Wrote};
ghost use Rattle.cat_http.specs.Reply.{render, close_line, body_part, body_length_of, phrase_of};

use crate::gather::Gathered;
use crate::put::WriteFault;
use cat_io::Sink;
use http::StatusCode;

/// The JSON of a reply.
#[derive(Drop)]
pub enum Body {
    Bytes(Vec<u8>),
    /// The fixed text that tells of want of memory, with the status 507.
    NoMemory,
}

const NO_MEMORY: &[u8] =
    b"{\"errorCode\":\"NO_MEMORY\",\"message\":\"no memory\",\"reason\":\"Insufficient Storage\",\"status\":507}";

impl Body {
    ghost use Rattle.cat_http.specs.Reply.{body_bytes};

    fn as_slice(&self) -> &[u8]
        ensures { result.now ≡ body_bytes self.now }
    {
        match self {
            Body::Bytes(bytes) => bytes.as_slice(),
            Body::NoMemory => NO_MEMORY,
        }
    }
}

/// A reply of JSON.
#[derive(Drop)]
pub struct Response {
    pub status: StatusCode,
    /// The methods of the route, where the request's isn't one.
    pub allow: Option<&'static str>,
    /// The number of log entries of the state that the reply was made from.
    pub place: Option<u32>,
    /// Whether the session ends after the reply.
    pub close: bool,
    /// A reply to HEAD, which has neither a body nor its length.
    pub head_only: bool,
    pub body: Body,
}

fn phrase(status: StatusCode) -> &'static [u8]
    ensures { result.now ≡ phrase_of status }
{
    match status.canonical_reason() {
        Some(text) => text.as_bytes(),
        None => b"",
    }
}

impl Response {
    /// The reply that tells of want of memory, which takes none.
    pub fn no_memory(close: bool, head_only: bool) -> Response
        ensures { result
            ≡ record {
              status = 507;
              allow = None;
              place = None;
              close = close;
              head_only = head_only;
              body = Body.NoMemory;
            } }
    {
        Response {
            status: StatusCode::INSUFFICIENT_STORAGE,
            allow: None,
            place: None,
            close,
            head_only,
            body: Body::NoMemory,
        }
    }

    ghost use Rattle.cat_http.specs.Reply.{close_line, body_part, body_length_of, body_bytes};

    fn close_line(&self) -> &[u8]
        ensures { result.now ≡ close_line self.now.close }
    {
        if self.close {
            b"Connection: close\r\n"
        } else {
            b""
        }
    }

    fn body_part(&self) -> &[u8]
        ensures { result.now ≡ body_part self.now.head_only (body_bytes self.now.body) }
    {
        if !self.head_only {
            return self.body.as_slice();
        }
        b""
    }

    fn place_number(&self) -> Option<u64>
        ensures { result ≡ self.now.place }
    {
        match self.place {
            None => None,
            Some(place) => Some(u64::from(place)),
        }
    }

    fn body_length(&self) -> Option<u64>
        ensures { result ≡ body_length_of self.now.head_only (body_bytes self.now.body) }
    {
        if self.head_only {
            None
        } else {
            Some(self.body.as_slice().len() as u64)
        }
    }
}

/// Writes the reply, or a front of it where the sink fails. It takes no memory. A small reply is
/// one write and a large one two, where the sink takes all that it is handed.
pub fn write_reply<K: Sink>(sink: &mut K, reply: &Response) -> Result<(), WriteFault>
    ensures { Wrote (K.held sink.old) (K.held sink.new) (K.faults sink.old) (K.faults sink.new)
        result (render reply.now) }
{
    let mut digits = itoa::Buffer::new();
    let mut gathered = Gathered::new();
    gathered.put(sink, b"HTTP/1.1 ");
    gathered.put(sink, digits.format(reply.status.as_u16()).as_bytes());
    gathered.put(sink, b" ");
    gathered.put(sink, phrase(reply.status));
    gathered.put(sink, b"\r\n");
    gathered.put(sink, b"Content-Type: application/json\r\n");
    gathered.put_text_line(sink, b"Allow: ", reply.allow);
    gathered.put_number_line(sink, b"Catalogue-Place: ", reply.place_number());
    gathered.put_number_line(sink, b"Content-Length: ", reply.body_length());
    gathered.put(sink, reply.close_line());
    gathered.put(sink, b"\r\n");
    gathered.put(sink, reply.body_part());
    gathered.finish(sink)
}
