//! The types of the catalogue, the byte formats of those that are stored, and the definitions
//! that the crates above meet: the state, what each call does to it, what each reading call
//! answers, and what a list of requests brings. A type's fields are the fields of the definitions'
//! record of it, and each stored type has one spelling in bytes.
#![tactic(auto)]

pub mod ask;
pub mod command;
pub mod commit;
pub mod conflict;
pub mod content;
pub mod copies;
pub mod cutoff;
pub mod entry;
pub mod filter;
pub mod limits;
pub mod log_entry;
pub mod logged;
pub mod merging;
pub mod moment;
pub mod op;
pub mod reference;
pub mod refusal;
pub mod reply;
pub mod sweep;
