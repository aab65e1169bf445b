//! Tests of real files, the program's own runs on them among these. What is expected comes from
//! outside.
#![tactic(auto)]

#[cfg(test)]
mod files;
#[cfg(test)]
mod serving;
