//! Conflicts of a call with what the catalogue holds.

ghost use Rattle.std.specs.Prelude.{◌≡◌, Some};
ghost use Rattle.cat_model.specs.Differs.{differs as differs_by};

use crate::entry::Entry;
use cat_names::key::ContentKey;

/// How a call and the catalogue disagree, by the names of the REST API.
#[derive(Clone, Copy, Debug, PartialEq, Eq)]
pub enum ConflictKind {
    KeyExists,
    KeyDoesNotExist,
    PayloadDiffers,
    ContentIdDiffers,
    ValueDiffers,
    NamespaceAbsent,
    NotANamespace,
    NamespaceNotEmpty,
    UnexpectedHash,
}

/// A conflict at a key; an unexpected hash has none.
#[derive(Clone, Debug, Drop)]
pub struct Conflict {
    pub key: Option<ContentKey>,
    pub kind: ConflictKind,
}

/// How the entry found differs from the one expected, by type, then id, then value.
pub fn differs(expected: &Option<Entry>, found: &Option<Entry>) -> Option<ConflictKind>
    ensures { result ≡ differs_by expected.now found.now }
{
    match (expected, found) {
        (None, None) => None,
        (None, Some(_)) => Some(ConflictKind::KeyExists),
        (Some(_), None) => Some(ConflictKind::KeyDoesNotExist),
        (Some(a), Some(b)) => differing(a, b),
    }
}

fn differing(expected: &Entry, found: &Entry) -> Option<ConflictKind>
    ensures { result ≡ differs_by (Some expected.now) (Some found.now) }
{
    if expected.kind.number() != found.kind.number() {
        Some(ConflictKind::PayloadDiffers)
    } else if expected.id != found.id {
        Some(ConflictKind::ContentIdDiffers)
    } else if expected.hash != found.hash {
        Some(ConflictKind::ValueDiffers)
    } else {
        None
    }
}
