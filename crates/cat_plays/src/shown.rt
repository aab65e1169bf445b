//! Bytes as a reader can tell them apart.

use std::alloc::{AllocError, Global};

const BEFORE: usize = 150;

const MOST: usize = 300;

/// Bytes from the beginning of the line on in which a place stands.
pub fn shown(alloc: Global, bytes: &[u8], place: usize) -> Result<String, AllocError> {
    let start = line_start(bytes, place).max(place.saturating_sub(BEFORE));
    let rest = bytes.get(start..).unwrap_or(&[]);
    let mut out = String::new(alloc);
    for byte in rest.get(..MOST).unwrap_or(rest) {
        put_byte(alloc, &mut out, *byte)?;
    }
    if rest.len() > MOST {
        out.push_str(" ..")?;
    }
    Ok(out)
}

fn line_start(bytes: &[u8], place: usize) -> usize {
    let before = bytes.get(..place).unwrap_or(bytes);
    let mut start = 0;
    for (at, byte) in before.iter().enumerate() {
        if *byte == b'\n' {
            start = at.saturating_add(1);
        }
    }
    start
}

fn put_byte(alloc: Global, out: &mut String, byte: u8) -> Result<(), AllocError> {
    match byte {
        b'\r' => out.push_str("\\r"),
        b'\n' => out.push_str("\\n"),
        b'\\' => out.push_str("\\\\"),
        b' '..=b'~' => out.push(char::from(byte)),
        _ => {
            let digits = format!(in alloc; "\\x{byte:02x}")?;
            out.push_str(digits.as_str())
        }
    }
}
