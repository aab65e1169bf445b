//! The routes of the server: which route a path has, and what its parameters took of the path.
#![tactic(auto)]

mod path;
mod routes;

pub use path::Path;
pub use routes::{Found, Route, Routes};
