//! Tests of what no request reaches of the crates below the store: streams, connections, crash
//! images, and calls that the program doesn't make. What is expected comes from outside. A value
//! whose parts have variants is given to `drop` or to a helper before the next way out, so that a
//! test's own body has plain values alone: each way out has its proof.
#![tactic(auto)]

#[cfg(test)]
mod codes;
#[cfg(test)]
mod disks;
#[cfg(test)]
mod graph;
#[cfg(test)]
mod journals;
#[cfg(test)]
mod listed;
#[cfg(test)]
mod listening;
#[cfg(test)]
mod maps;
#[cfg(test)]
mod ordered;
#[cfg(test)]
mod policies;
#[cfg(test)]
mod records;
#[cfg(test)]
mod replies;
#[cfg(test)]
mod streams;
