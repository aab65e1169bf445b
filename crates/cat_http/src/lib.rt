//! Requests and replies of HTTP/1.1 over any source and sink. What `read_request` answers is a
//! relation of the whole stream of bytes, in whatever pieces it comes; one stream has one reading.
//! A read that fails leaves no request that had come whole.
//! Reading and writing take no memory.
#![tactic(auto)]

mod blank;
mod buffer;
mod chunk_end;
mod chunked;
mod fields;
mod fill;
mod gather;
mod head;
mod law;
mod next;
mod put;
mod reply;
mod request;
mod size_line;

pub use buffer::{Buffer, Incoming, read_request};
pub use law::one_stream_has_one_reading;
pub use put::{WriteFault, write_all};
pub use reply::{Body, Response, write_reply};
pub use request::Request;
