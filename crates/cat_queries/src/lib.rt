//! The parameters of a query: the values of a name, how many records a page has, and numbers in
//! digits. A query is what follows the first `?` of a target, and none is ill-formed.
#![tactic(auto)]

mod page;
mod parameters;

pub use page::{is_number, page_limit, read_digits};
pub use parameters::{all, first};
