//! Commits as bytes, and what is said of them as JSON. The bytes of a commit are its one spelling
//! and their hash its id, each reader answers just what its format says, and the text of a moment
//! is a function of it.
#![tactic(auto)]

mod bytes;
mod instant;
mod meta;

pub use bytes::{from_bytes, id, to_bytes};
pub use instant::{InstantForm, read_instant, write_instant};
pub use meta::{
    CommitMetaForm, GivenMeta, GivenMetaForm, MetaForm, commit_meta_to_json, meta_from_json,
    meta_to_json, told_meta_to_json,
};
