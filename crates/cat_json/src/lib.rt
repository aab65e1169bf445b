//! JSON in and out, by forms. A form says which data a value reads from or writes as; the readers
//! answer just what the form says, `Bad` where it says nothing, and the text of a written value is
//! the compact text of its data.
#![tactic(auto)]

pub mod fault;
pub mod names;
pub mod read;
pub mod values;
pub mod write;
