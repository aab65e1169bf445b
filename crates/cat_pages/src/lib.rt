//! Tokens and pages of listings. A page has the first so many of what is left of a listing, and for
//! a limit above 0 a token exactly where more follow. A token is a text, and the text of each token is read as that
//! token. Pages that follow one another by their tokens make the listing, each item once, and a
//! listing at a commit stays whatever commits are added meanwhile.
#![tactic(auto)]

mod entries;
mod history;
pub mod laws;
pub mod page;
mod references;
pub mod token;

pub use entries::entries_page;
pub use history::history_page;
pub use references::references_page;
