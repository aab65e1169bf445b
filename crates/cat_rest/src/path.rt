//! References and keys in paths.

ghost use Rattle.std.specs.Prelude.{◌≡◌, option_map};
ghost use Rattle.cat_rest.specs.Faults.{GivesPath, GivesText, BecomesRefused, NameBecomes, KeyBecomes};
ghost use Rattle.cat_rest.specs.Paths.{decoded, name_in, reference_in, reference_at, name_before, pointer_in, back_in, position_in, position_at, key_at};

use cat_model::reference::{Pointer, Position};
use cat_model::refusal::{Reason, Refusal, Refused};
use cat_names::hash::Hash;
use cat_names::key::ContentKey;
use cat_names::key_fault::KeyFault;
use cat_names::name_fault::NameFault;
use cat_names::ref_name::RefName;
use cat_queries::{is_number, read_digits};
use percent_encoding::{DecodeError, percent_decode_str};
use std::alloc::Global;
use std::borrow::CowStr;
use thiserror::Error;

/// Why a parameter of a path has no reading.
#[derive(Clone, Copy, Debug, PartialEq, Eq, Error)]
pub enum PathFault {
    #[error("a parameter of the path has no reading")]
    Bad,
    #[error("memory ran out")]
    NoMemory,
}

/// A reference of a path, and the hash behind its `@`.
#[derive(Drop)]
pub struct PathReference {
    pub name: RefName,
    pub hash: Option<Hash>,
}

impl From<PathFault> for Refused {
    ghost from_gives = { BecomesRefused };

    fn from(fault: PathFault) -> Refused {
        let why = match fault {
            PathFault::Bad => Refusal::BadRequest(Reason::BadPath),
            PathFault::NoMemory => Refusal::NoMemory,
        };
        Refused { place: None, why }
    }
}

impl From<NameFault> for PathFault {
    ghost from_gives = { NameBecomes };

    fn from(fault: NameFault) -> PathFault {
        match fault {
            NameFault::Bad => PathFault::Bad,
            NameFault::NoMemory => PathFault::NoMemory,
        }
    }
}

impl From<KeyFault> for PathFault {
    ghost from_gives = { KeyBecomes };

    fn from(fault: KeyFault) -> PathFault {
        match fault {
            KeyFault::NoMemory => PathFault::NoMemory,
            _ => PathFault::Bad,
        }
    }
}

// A parameter without its escapes.
#[tactic(auto, using(cat_json::proofs::Utf8::utf8))]
fn decoded(alloc: Global, part: &str) -> Result<CowStr<'_, Global>, PathFault>
    ensures { GivesText result (decoded part.now) }
{
    match percent_decode_str(part).decode_utf8(alloc) {
        Ok(text) => Ok(text),
        Err(DecodeError::OutOfMemory) => Err(PathFault::NoMemory),
        Err(DecodeError::Utf8(_)) => Err(PathFault::Bad),
    }
}

// A name, or `-` for the default branch.
fn name_in(alloc: Global, text: &str) -> Result<RefName, PathFault>
    ensures { GivesPath result (name_in text.now) }
{
    let name = if text == "-" { "main" } else { text };
    Ok(RefName::parse(alloc, name)?)
}

#[tactic(auto, unfolding(crate::specs::Paths::reference_in))]
fn reference_in(alloc: Global, text: &str) -> Result<PathReference, PathFault>
    ensures { GivesPath result (reference_in text.now) }
{
    match text.split_once('@') {
        None => {
            let name = name_in(alloc, text)?;
            Ok(PathReference { name, hash: None })
        }
        Some((name, hash)) => {
            let name = name_in(alloc, name)?;
            match Hash::parse(hash) {
                Some(hash) => Ok(PathReference {
                    name,
                    hash: Some(hash),
                }),
                None => Err(PathFault::Bad),
            }
        }
    }
}

// The name before an `@`, which may be missing there.
fn name_before(alloc: Global, text: &str) -> Result<Option<RefName>, PathFault>
    ensures { GivesPath result (name_before text.now) }
{
    if text.is_empty() {
        return Ok(None);
    }
    Ok(Some(name_in(alloc, text)?))
}

#[tactic(auto, unfolding(crate::specs::Paths::pointer_in))]
fn pointer_in(alloc: Global, text: &str) -> Result<Pointer, PathFault>
    ensures { GivesPath result (pointer_in text.now) }
{
    match text.split_once('@') {
        None => {
            let name = name_in(alloc, text)?;
            Ok(Pointer {
                name: Some(name),
                hash: None,
            })
        }
        Some((name, hash)) => {
            let name = name_before(alloc, name)?;
            match Hash::parse(hash) {
                Some(hash) => Ok(Pointer {
                    name,
                    hash: Some(hash),
                }),
                None => Err(PathFault::Bad),
            }
        }
    }
}

// The most digits of how many commits back a read goes.
const MOST_DIGITS: usize = 10;

// How many commits back, in digits.
fn back_in(text: &str) -> Option<u32>
    ensures { result ≡ back_in text.now }
{
    if !is_number(text) || text.len() > MOST_DIGITS {
        return None;
    }
    match read_digits(text) {
        Ok(back) => Some(back),
        Err(_) => None,
    }
}

#[tactic(auto, unfolding(crate::specs::Paths::position_in))]
fn position_in(alloc: Global, text: &str) -> Result<Position, PathFault>
    ensures { GivesPath result (position_in text.now) }
{
    match text.split_once('~') {
        None => {
            let from = pointer_in(alloc, text)?;
            Ok(Position { from, back: 0 })
        }
        Some((pointer, digits)) => {
            let from = pointer_in(alloc, pointer)?;
            match back_in(digits) {
                Some(back) => Ok(Position { from, back }),
                None => Err(PathFault::Bad),
            }
        }
    }
}

/// The commit that a parameter of a read asks for.
pub(crate) fn position_at(alloc: Global, part: Option<&str>) -> Result<Position, PathFault>
    ensures { GivesPath result (position_at (option_map (λ s. s.now) part.entry)) }
{
    let Some(part) = part else {
        return Err(PathFault::Bad);
    };
    let text = decoded(alloc, part)?;
    position_in(alloc, text.as_str())
}

/// The reference that a parameter of a change stands for.
pub(crate) fn reference_at(alloc: Global, part: Option<&str>) -> Result<PathReference, PathFault>
    ensures { GivesPath result (reference_at (option_map (λ s. s.now) part.entry)) }
{
    let Some(part) = part else {
        return Err(PathFault::Bad);
    };
    let text = decoded(alloc, part)?;
    reference_in(alloc, text.as_str())
}

/// The key that a parameter stands for.
pub(crate) fn key_at(alloc: Global, part: Option<&str>) -> Result<ContentKey, PathFault>
    ensures { GivesPath result (key_at (option_map (λ s. s.now) part.entry)) }
{
    let Some(part) = part else {
        return Err(PathFault::Bad);
    };
    let text = decoded(alloc, part)?;
    Ok(ContentKey::parse_path(alloc, text.as_str())?)
}
