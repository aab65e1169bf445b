//! What a run is sent.

use crate::fault::Fault;
use crate::splits::{bytes_of_hex, first_word, number};
use std::alloc::{AllocError, Global};

/// Bytes, and where the requests in them begin.
#[derive(Drop)]
pub struct Sent {
    bytes: Vec<u8>,
    starts: Vec<usize>,
    /// Whether a line begins a request.
    is_between: bool,
}

/// Whether a line that begins with this word is one of what is sent.
pub fn is_sending(word: &str) -> bool {
    is_method(word) || word.starts_with('>')
}

fn is_method(word: &str) -> bool {
    matches!(word, "GET" | "POST" | "PUT" | "DELETE" | "HEAD")
}

impl Sent {
    pub fn new(alloc: Global) -> Sent {
        Sent {
            bytes: Vec::new(alloc),
            starts: Vec::new(alloc),
            is_between: true,
        }
    }

    pub fn is_empty(&self) -> bool {
        self.bytes.is_empty()
    }

    pub fn bytes(&self) -> &[u8] {
        &self.bytes
    }

    /// Sends what a line says besides.
    pub fn send(&mut self, alloc: Global, word: &str, text: &str) -> Result<(), Fault> {
        match word {
            ">" => self.send_line(text)?,
            ">>" => self.send_body(alloc, text)?,
            ">-" => self.send_bytes(text.as_bytes())?,
            ">x" => {
                let bytes = bytes_of_hex(alloc, text)?;
                self.send_bytes(&bytes)?;
            }
            ">cut" => self.cut(number(text)?),
            method if is_method(method) => self.send_request(alloc, method, text)?,
            _ => return Err(Fault::NoReading),
        }
        Ok(())
    }

    fn send_line(&mut self, line: &str) -> Result<(), AllocError> {
        if self.is_between && !line.is_empty() {
            self.starts.push(self.bytes.len())?;
        }
        self.is_between = line.is_empty();
        self.bytes.extend_from_slice(line.as_bytes())?;
        self.bytes.extend_from_slice(b"\r\n")
    }

    fn send_bytes(&mut self, bytes: &[u8]) -> Result<(), AllocError> {
        self.is_between = false;
        self.bytes.extend_from_slice(bytes)
    }

    fn send_body(&mut self, alloc: Global, body: &str) -> Result<(), AllocError> {
        let length = body.len();
        let head = format!(in alloc; "Content-Length: {length}\r\n\r\n")?;
        self.bytes.extend_from_slice(head.as_bytes())?;
        self.is_between = true;
        self.bytes.extend_from_slice(body.as_bytes())
    }

    fn send_request(&mut self, alloc: Global, method: &str, text: &str) -> Result<(), AllocError> {
        let (target, body) = first_word(text);
        let line = format!(in alloc; "{method} {target} HTTP/1.1")?;
        self.is_between = true;
        self.send_line(line.as_str())?;
        if body.is_empty() {
            self.send_line("")
        } else {
            self.send_body(alloc, body)
        }
    }

    // Keeps the first bytes, so many.
    fn cut(&mut self, length: u64) {
        let length = length.min(self.bytes.len() as u64) as usize;
        let count = self.starts.iter().filter(|start| **start < length).count();
        self.starts.truncate(count);
        self.bytes.truncate(length);
    }

    /// The bytes of the first requests, and the others; none where there are fewer.
    pub fn split(&self, count: u64) -> Option<(&[u8], &[u8])> {
        let count = count.min(u64::from(u32::MAX)) as usize;
        if count == self.starts.len() {
            return Some((&self.bytes, &[]));
        }
        let start = self.starts.get(count)?;
        self.bytes.as_slice().split_at_checked(*start)
    }

    /// The bytes of each request.
    pub fn requests(&self, alloc: Global) -> Result<Vec<&[u8]>, AllocError> {
        let mut requests = Vec::new(alloc);
        let ends = self.starts.iter().skip(1).copied();
        for (start, end) in self.starts.iter().zip(ends) {
            requests.push(self.bytes.get(*start..end).unwrap_or(&[]))?;
        }
        if let Some(last) = self.starts.last() {
            requests.push(self.bytes.get(*last..).unwrap_or(&[]))?;
        }
        Ok(requests)
    }
}
