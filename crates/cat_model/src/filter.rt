//! Which keys of a map are listed.

use cat_codes::seq::Seq;
use cat_names::key::ContentKey;

/// What the keys of a listing must all meet.
#[derive(Drop)]
pub struct Filter {
    /// The least key, itself listed.
    pub min: Option<ContentKey>,
    /// The greatest key, itself listed.
    pub max: Option<ContentKey>,
    /// The elements that a key begins with; the key of just these is listed too.
    pub prefix: Option<ContentKey>,
    /// The keys that may be listed; none excludes nothing.
    pub keys: Seq<ContentKey>,
}
