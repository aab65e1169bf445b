//! Values under distinct hashes, in the order in which they were added, found by one look-up of
//! their hash; and named references, by ascending names. Both are ordered maps whose versions share
//! their parts: a change makes a new version and leaves the one before as it is. A table is seen as
//! the list of its hashes and values, the newest first, references as their list by ascending
//! names, and each call answers what its definition says of that list. What is added to a table in
//! one go is gathered in a batch first. All values are listed by their hashes, or as they came.
#![tactic(auto)]

mod adding;
pub mod batch;
pub mod listing;
pub mod references;
mod removing;
pub mod table;
