//! Requests as what they want of the catalogue. What a request wants, or the refusal of one that
//! has no reading, is one function of its method, target, fields and body.
#![tactic(auto)]

mod changes;
mod command;
mod commit;
mod merge;
mod modes;
mod operation;
mod parameter;
mod path;
mod query;
mod reads;
mod refused;
mod source;
mod transplant;
mod wanted;

pub use cat_replies::{refusal_to_json, status_of, to_json};
pub use cat_routes::Routes;
pub use command::to_command;
pub use wanted::Wanted;
