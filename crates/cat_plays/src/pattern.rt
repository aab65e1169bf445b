//! Lines that stand for many: lists of a text, and the number that a line is played with.

use crate::splits::is_digits;
use std::alloc::{AllocError, Global};

/// A line with its lists written out, and then the number, where there is one, for each `#`.
pub fn write_out(alloc: Global, line: &str, number: Option<u64>) -> Result<String, AllocError> {
    let mut out = String::new(alloc);
    let mut rest = line;
    for _ in 0..line.len() {
        let Some((before, after)) = rest.split_once('$') else {
            break;
        };
        put_numbered(alloc, &mut out, before, number)?;
        rest = match list(after) {
            Some((count, item, behind)) => {
                put_list(alloc, &mut out, count, item)?;
                behind
            }
            None => {
                out.push_str("$")?;
                after
            }
        };
    }
    put_numbered(alloc, &mut out, rest, number)?;
    Ok(out)
}

// The count and the text of a list, whose `$` is read, and what follows it.
fn list(text: &str) -> Option<(u64, &str, &str)> {
    if !text.starts_with(|c: char| c.is_ascii_digit()) {
        return None;
    }
    let (count, rest) = text.split_once('*')?;
    if !is_digits(count) {
        return None;
    }
    let (item, behind) = rest.split_once("*$")?;
    Some((count.parse::<u64>().ok()?, item, behind))
}

fn put_list(alloc: Global, out: &mut String, count: u64, item: &str) -> Result<(), AllocError> {
    for index in 0..count {
        if index > 0 {
            out.push_str(",")?;
        }
        put_numbered(alloc, out, item, Some(index))?;
    }
    Ok(())
}

fn put_numbered(
    alloc: Global,
    out: &mut String,
    text: &str,
    number: Option<u64>,
) -> Result<(), AllocError> {
    match number {
        Some(number) => {
            let digits = number.to_string(alloc)?;
            let text = text.replace(alloc, "#", digits.as_str())?;
            out.push_str(text.as_str())
        }
        None => out.push_str(text),
    }
}
