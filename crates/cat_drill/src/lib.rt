//! A catalogue made from a number: commits on `main` that a generator draws from a seed, one after
//! another, in memory, on a desk with one pass. What `drill` writes is the line that is told of the
//! model's catalogue after these calls, unless memory runs out.
#![tactic(auto)]

mod generator;
mod request;
mod run;

pub use run::drill;
