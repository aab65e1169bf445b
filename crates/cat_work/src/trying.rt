//! A call that is being tried.

use cat_core::{Draft, View};
use cat_model::refusal::Refused;
use cat_model::reply::Told;
use cat_names::hash::Hash;

/// Its draft, the view to build it on, and the places and heads that were built on. It must be
/// spent.
pub(crate) struct Trying<'a> {
    pub(crate) draft: Draft<'a>,
    pub(crate) view: View,
    pub(crate) pairs: Vec<(u32, Hash)>,
}

/// What an attempt that isn't the last ends in.
pub(crate) enum Tried<'a> {
    Ended(Result<Told, Refused>),
    On(Trying<'a>),
}
