//! What a collection keeps live.

use cat_codes::seq::Seq;
use cat_model::cutoff::Cutoff;
use cat_names::hash::Hash;

/// What a collection keeps live: heads with what is kept of their chains, and hashes of contents. A
/// commit alone is a head with a cutoff of one commit.
#[derive(Drop)]
pub struct Roots {
    /// Heads of references, each with the cutoff that says which commits of its chain are kept. A
    /// head that is no commit's hash keeps nothing.
    pub heads: Seq<(Hash, Cutoff)>,
    /// Hashes of contents, live whether or not a kept commit shows them.
    pub hashes: Seq<Hash>,
}
