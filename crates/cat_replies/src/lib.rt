//! The catalogue's replies and refusals as JSON. Each reply and each refusal has one text, a
//! function of it, and each refusal one status.
#![tactic(auto)]

mod content;
mod history;
mod merged;
mod page;
mod reference;
mod refusal;
mod reply;
mod token;
mod wording;

pub use refusal::refusal_to_json;
pub use reply::to_json;
pub use wording::status_of;
