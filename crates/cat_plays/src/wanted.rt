//! What a run is to write.

use crate::fault::Fault;
use crate::names::{DIGITS, Hole, Text};
use crate::reply::{head, status_line};
use crate::splits::bytes_of_hex;
use std::alloc::{AllocError, Global};

/// Bytes with holes.
#[derive(Drop)]
pub struct Wanted {
    bytes: Vec<u8>,
    holes: Vec<Hole>,
    /// Whether a front of the bytes will do.
    is_front: bool,
}

/// What a run was to write, and where what it wrote differs first.
#[derive(Drop)]
pub struct Difference {
    pub wanted: Vec<u8>,
    pub place: usize,
}

/// Whether a line that begins with this word is one of what is wanted.
pub fn is_wanting(word: &str) -> bool {
    word.starts_with('<') || status_line(word).is_some()
}

impl Wanted {
    pub fn new(alloc: Global) -> Wanted {
        Wanted {
            bytes: Vec::new(alloc),
            holes: Vec::new(alloc),
            is_front: false,
        }
    }

    pub fn is_empty(&self) -> bool {
        self.bytes.is_empty() && !self.is_front
    }

    pub fn holes(&self) -> &[Hole] {
        &self.holes
    }

    /// Wants what a line says besides.
    pub fn want(&mut self, alloc: Global, word: &str, text: Text) -> Result<(), Fault> {
        match word {
            "<" => self.want_line(text, "\r\n"),
            "<=" => self.want_line(text, "\n"),
            "<-" => self.want_line(text, ""),
            "<<" => {
                let length = text.text.len();
                let head = format!(in alloc; "Content-Length: {length}\r\n\r\n")?;
                self.bytes.extend_from_slice(head.as_bytes())?;
                self.want_line(text, "")
            }
            "<x" => {
                let bytes = bytes_of_hex(alloc, text.text.as_str())?;
                Ok(self.bytes.extend_from_slice(&bytes)?)
            }
            "<front" if text.text.is_empty() => {
                self.is_front = true;
                Ok(())
            }
            code => match status_line(code) {
                Some(status) => self.want_reply(alloc, status, text),
                None => Err(Fault::NoReading),
            },
        }
    }

    fn want_reply(&mut self, alloc: Global, status: &str, text: Text) -> Result<(), Fault> {
        let (head, body) = head(alloc, status, text.text.as_str())?;
        let start = text.text.len().saturating_sub(body.len());
        self.bytes.extend_from_slice(head.as_bytes())?;
        let before = self.bytes.len();
        self.bytes.extend_from_slice(body.as_bytes())?;
        self.keep_holes(text.holes, start, before)
    }

    fn want_line(&mut self, text: Text, end: &str) -> Result<(), Fault> {
        let before = self.bytes.len();
        self.bytes.extend_from_slice(text.text.as_bytes())?;
        self.bytes.extend_from_slice(end.as_bytes())?;
        self.keep_holes(text.holes, 0, before)
    }

    // The holes of a text, whose part from `start` on stands behind so many bytes.
    fn keep_holes(&mut self, holes: Vec<Hole>, start: usize, before: usize) -> Result<(), Fault> {
        for hole in holes {
            let Hole {
                name,
                place,
                is_giving,
            } = hole;
            let Some(within) = place.checked_sub(start) else {
                return Err(Fault::NoReading);
            };
            self.holes.push(Hole {
                name,
                place: before.saturating_add(within),
                is_giving,
            })?;
        }
        Ok(())
    }

    /// What differs, if anything does.
    pub fn difference(&self, alloc: Global, came: &[u8]) -> Result<Option<Difference>, AllocError> {
        let wanted = self.filled(alloc, came)?;
        match first_difference(&wanted, came, self.is_front) {
            Some(place) => Ok(Some(Difference { wanted, place })),
            None => Ok(None),
        }
    }

    // The bytes with the digits that came in the holes, where they are digits, and the same ones
    // for the same name.
    fn filled(&self, alloc: Global, came: &[u8]) -> Result<Vec<u8>, AllocError> {
        let mut filled = Vec::new(alloc);
        for hole in &self.holes {
            let before = self.bytes.get(filled.len()..hole.place).unwrap_or(&[]);
            filled.extend_from_slice(before)?;
            let mut digits = if hole.is_giving {
                digits_at(alloc, came, hole.place)?
            } else {
                digits_at(alloc, &filled, self.given(hole.name.as_str()))?
            };
            digits.resize(DIGITS, b'?')?;
            filled.extend_from_slice(&digits)?;
        }
        let behind = self.bytes.get(filled.len()..).unwrap_or(&[]);
        filled.extend_from_slice(behind)?;
        Ok(filled)
    }

    // Where a name was given.
    fn given(&self, name: &str) -> usize {
        for hole in &self.holes {
            if hole.is_giving && hole.name.as_str() == name {
                return hole.place;
            }
        }
        usize::MAX
    }
}

// The digits of a hash at a place, as many as there are; none where other bytes are among them.
fn digits_at(alloc: Global, bytes: &[u8], place: usize) -> Result<Vec<u8>, AllocError> {
    let rest = bytes.get(place..).unwrap_or(&[]);
    let digits = rest.get(..DIGITS).unwrap_or(rest);
    if digits.iter().all(|byte| is_digit(*byte)) {
        Vec::from_slice(alloc, digits)
    } else {
        Ok(Vec::new(alloc))
    }
}

fn is_digit(byte: u8) -> bool {
    matches!(byte, b'0'..=b'9' | b'a'..=b'f')
}

/// The first place at which two texts differ. Where a front will do, the second may end early.
pub fn first_difference(wanted: &[u8], came: &[u8], is_front: bool) -> Option<usize> {
    let pairs = wanted.iter().zip(came.iter());
    for (place, (one, other)) in pairs.enumerate() {
        if one != other {
            return Some(place);
        }
    }
    if wanted.len() == came.len() || (is_front && came.len() < wanted.len()) {
        return None;
    }
    Some(wanted.len().min(came.len()))
}
