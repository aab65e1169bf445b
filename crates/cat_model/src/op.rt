//! Operations of a commit request.

ghost use Rattle.std.specs.Prelude.{◌≡◌};
ghost use Rattle.cat_model.specs.Walks.{left_after};

use crate::content::Content;
use crate::entry::Entry;
use cat_names::key::ContentKey;

/// An operation on a key.
#[derive(Drop)]
pub enum Op {
    /// Sets the key. A fresh entry is a new content, whose id the server gives.
    Put {
        key: ContentKey,
        entry: Entry,
        fresh: bool,
    },
    /// Removes the key.
    Delete {
        key: ContentKey,
    },
    /// Leaves the key, which must be as expected.
    Unchanged {
        key: ContentKey,
    },
}

impl Op {
    /// The contents that are left to the operations after this one.
    pub fn left_after<'a>(&self, contents: &'a [Content]) -> &'a [Content]
        ensures { result.now ≡ left_after self.now contents.now }
    {
        match self {
            Op::Put { .. } => match contents {
                [] => contents,
                [_, rest @ ..] => rest,
            },
            Op::Delete { .. } => contents,
            Op::Unchanged { .. } => contents,
        }
    }
}
