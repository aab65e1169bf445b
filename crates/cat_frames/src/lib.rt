//! Log entries as bytes: the number of the kind, the place, the draft, the moment, the call or the
//! sweep, and the head that it left. Each entry that a catalogue logs has one spelling, and what is
//! read is spelled so; the caller isn't told. A checkpoint, a state that is written among them, has
//! one spelling too, whose first byte is no entry's.
#![tactic(auto)]

mod asked;
mod checkpoint;
mod checkpoint_fields;
mod checkpoint_records;
mod checkpoint_size;
mod command_fields;
mod entries;
mod entry_fields;
mod modes;
mod request_fields;
mod sources;
mod sweep_fields;

pub use checkpoint::{
    Checkpoint, checkpoint_from_bytes, checkpoint_to_bytes, is_checkpoint, is_whole_checkpoint,
};
pub use checkpoint_size::checkpoint_fits;
pub use entries::{from_bytes, has_reading, to_bytes};
pub use request_fields::given_requests_are_logged;
