//! Parts of a line.

use crate::fault::Fault;
use std::alloc::{AllocError, Global};

/// The first word, and what follows the one blank behind it.
pub fn first_word(text: &str) -> (&str, &str) {
    match text.split_once(' ') {
        Some(parts) => parts,
        None => (text, ""),
    }
}

/// Whether there are digits, and nothing else.
pub fn is_digits(text: &str) -> bool {
    !text.is_empty() && text.as_bytes().iter().all(|byte| byte.is_ascii_digit())
}

/// A number in digits.
pub fn number(text: &str) -> Result<u64, Fault> {
    if !is_digits(text) {
        return Err(Fault::NoReading);
    }
    text.parse::<u64>().ok().ok_or(Fault::NoReading)
}

/// Bytes in hexadecimal, among which blanks may stand.
pub fn bytes_of_hex(alloc: Global, text: &str) -> Result<Vec<u8>, Fault> {
    let digits = text.replace(alloc, " ", "")?;
    let mut bytes = Vec::from_elem(alloc, 0, digits.len() / 2)?;
    match hex::decode_to_slice(digits.as_str(), bytes.as_mut_slice()) {
        Ok(()) => Ok(bytes),
        Err(_) => Err(Fault::NoReading),
    }
}

/// Words parted by blanks, of which those in single quotes may have blanks, or be empty.
pub fn words<'a>(alloc: Global, text: &'a str) -> Result<Vec<&'a str>, AllocError> {
    let mut words = Vec::new(alloc);
    let mut is_quoted = false;
    for part in text.split('\'') {
        if is_quoted {
            words.push(part)?;
        } else {
            for word in part.split_whitespace() {
                words.push(word)?;
            }
        }
        is_quoted = !is_quoted;
    }
    Ok(words)
}

/// The two numbers of a line that begins a `for`.
pub fn bounds(text: &str) -> Result<(u64, u64), Fault> {
    let (first, last) = first_word(text);
    Ok((number(first)?, number(last)?))
}

/// What a line says for a number: of `at A B LINE` the line behind the two, where the number is
/// none less than A and none above B; of another line all of it.
pub fn counting(line: &str, time: Option<u64>) -> Result<Option<&str>, Fault> {
    let (word, rest) = first_word(line);
    if word != "at" {
        return Ok(Some(line));
    }
    let (first, rest) = first_word(rest);
    let (last, rest) = first_word(rest);
    let (first, last) = (number(first)?, number(last)?);
    match time {
        Some(time) if first <= time && time <= last => Ok(Some(rest)),
        Some(_) => Ok(None),
        None => Err(Fault::NoReading),
    }
}
