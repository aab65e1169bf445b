//! Sessions: the requests of a connection, one after another, and the replies to them. Whatever
//! other callers do at once, what is written are the rendered replies to the requests in the bytes
//! that are read, each the catalogue's at its place in one legal log; the session's pass has then
//! seen that log, with the entry of each call that was accepted. On the only pass of a desk it is a
//! script. `serve_all` serves a listener's connections by several workers at once, each on a pass
//! of a number of its own. Where the listener tells, the connections that come back are the first
//! of those that waited, and of those that each twin was dealt, each of them served; where no call
//! of a listener failed, they are all. `Served` says whether the listener failed for one of the
//! workers, or memory ran out before the first connection.
#![tactic(auto)]

mod answer;
mod ending;
mod reply;
mod serving;
mod session;
mod settings;
mod worker;

pub use ending::Session;
pub use serving::{Served, serve_all};
pub use session::serve_connection;
pub use settings::Settings;
