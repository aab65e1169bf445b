//! Which operations of a commit request conflict with the catalogue. A request is judged against
//! the map that it expects and the map at the head: the answer is the first rule that each key
//! breaks, keys ascending, or the map after the request. A well-formed map stays so: the parent of
//! each key is there as a namespace.
#![tactic(auto)]

mod deletions;
pub mod judging;
pub mod namespaces;
