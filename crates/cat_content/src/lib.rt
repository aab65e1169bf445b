//! Contents as bytes and as JSON. The bytes of a content are its one spelling, each reader answers
//! just what its format says, and what is written, as bytes or as JSON, is read again.
#![tactic(auto)]

mod bytes;
mod read;
mod write;

pub use bytes::{from_bytes, hash, to_bytes};
pub use cat_model::content::{
    Body, Content, DeltaLakeTable, IcebergTable, IcebergView, Namespace, Udf,
};
pub use cat_model::entry::ContentKind;
pub use read::{Given, from_json};
pub use write::{reads_again, to_json};

/// The form of contents: read as what a request gives, written with their ids.
pub struct ContentForm;

/// The form of types of content, as `ICEBERG_TABLE`.
pub struct KindForm;
