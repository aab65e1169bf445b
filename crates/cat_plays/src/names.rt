//! Names, and the texts that they stand for.

use crate::fault::Fault;
use std::alloc::{AllocError, Global};
use std::collections::BTreeMap;

// More names than any line has, so that names which stand for one another come to an end.
const MOST: u32 = 1_000_000;

/// The digits of a hash.
pub const DIGITS: usize = 64;

/// A place in what is wanted, for the digits of a hash that only the run tells.
#[derive(Drop)]
pub struct Hole {
    pub name: String,
    pub place: usize,
    /// Whether it gives the name; else it has the digits that the name was given.
    pub is_giving: bool,
}

/// A text, with `?` for each digit of its holes.
#[derive(Drop)]
pub struct Text {
    pub text: String,
    pub holes: Vec<Hole>,
}

/// Names of a file, and those of a row.
#[derive(Drop)]
pub struct Names {
    file: BTreeMap<String, String>,
    row: BTreeMap<String, String>,
}

impl Names {
    pub fn new(alloc: Global) -> Names {
        Names {
            file: BTreeMap::new(alloc),
            row: BTreeMap::new(alloc),
        }
    }

    /// Another row begins.
    pub fn forget_row(&mut self, alloc: Global) {
        self.row = BTreeMap::new(alloc);
    }

    /// Has a name stand for a text, in this row or in the whole file.
    pub fn give(
        &mut self,
        alloc: Global,
        name: &str,
        text: &str,
        in_row: bool,
    ) -> Result<(), Fault> {
        if self.text(name).is_some() {
            return Err(Fault::Twice(String::from_str(alloc, name)?));
        }
        let names = if in_row {
            &mut self.row
        } else {
            &mut self.file
        };
        names.insert(
            String::from_str(alloc, name)?,
            String::from_str(alloc, text)?,
        )?;
        Ok(())
    }

    fn text(&self, name: &str) -> Option<&str> {
        match self.row.get(name) {
            Some(text) => Some(text.as_str()),
            None => match self.file.get(name) {
                Some(text) => Some(text.as_str()),
                None => None,
            },
        }
    }

    /// A text with its names written out.
    pub fn plain(&self, alloc: Global, text: &str) -> Result<String, Fault> {
        let Text { text, holes: _ } = self.write_out(alloc, text, None)?;
        Ok(text)
    }

    /// The same of a text that is wanted, behind a text with these holes.
    pub fn wanted(&self, alloc: Global, text: &str, before: &[Hole]) -> Result<Text, Fault> {
        self.write_out(alloc, text, Some(before))
    }

    // A stack of texts takes the place of a recursion.
    fn write_out(&self, alloc: Global, text: &str, before: Option<&[Hole]>) -> Result<Text, Fault> {
        let mut out = Text {
            text: String::new(alloc),
            holes: Vec::new(alloc),
        };
        let mut texts = Vec::new(alloc);
        texts.push(text)?;
        for _ in 0..MOST {
            let Some(text) = texts.pop() else {
                return Ok(out);
            };
            let Some((plain, name, after)) = first_name(text) else {
                out.text.push_str(text)?;
                continue;
            };
            out.text.push_str(plain)?;
            texts.push(after)?;
            match self.text(name) {
                Some(text) => texts.push(text)?,
                None => self.leave(alloc, &mut out, name, before)?,
            }
        }
        Err(Fault::Endless)
    }

    // Leaves a hole for a name that stands for no text.
    fn leave(
        &self,
        alloc: Global,
        out: &mut Text,
        name: &str,
        before: Option<&[Hole]>,
    ) -> Result<(), Fault> {
        let (name, is_giving) = match name.strip_suffix('?') {
            Some(name) => (name, true),
            None => (name, false),
        };
        let is_given = self.text(name).is_some()
            || has(before.unwrap_or(&[]), name)
            || has(&out.holes, name);
        let name = String::from_str(alloc, name)?;
        if is_giving && is_given {
            return Err(Fault::Twice(name));
        }
        if before.is_none() || is_giving == is_given {
            return Err(Fault::Unknown(name));
        }
        let place = out.text.len();
        out.holes.push(Hole {
            name,
            place,
            is_giving,
        })?;
        put_unknown(&mut out.text)?;
        Ok(())
    }
}

fn put_unknown(out: &mut String) -> Result<(), AllocError> {
    for _ in 0..DIGITS {
        out.push_str("?")?;
    }
    Ok(())
}

fn has(holes: &[Hole], name: &str) -> bool {
    holes.iter().any(|hole| hole.name.as_str() == name)
}

// The first name of a text, with what stands before it and behind it.
fn first_name(text: &str) -> Option<(&str, &str, &str)> {
    let (before, rest) = text.split_once("${")?;
    let (name, after) = rest.split_once('}')?;
    Some((before, name, after))
}
