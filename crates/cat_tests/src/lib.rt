//! Tests of what no request reaches of the store and what stands on it: threads, calls that meet
//! others, low limits, and calls that the program doesn't make. What is expected comes from
//! outside. A value whose parts have variants is given to `drop` or to a helper before the next way
//! out, so that a test's own body has plain values alone: each way out has its proof.
#![tactic(auto)]

#[cfg(test)]
mod asking;
#[cfg(test)]
mod checkpoints;
#[cfg(test)]
mod collected;
#[cfg(test)]
mod collecting;
#[cfg(test)]
mod desk;
#[cfg(test)]
mod holding;
#[cfg(test)]
mod limits;
#[cfg(test)]
mod marks;
#[cfg(test)]
mod meeting;
#[cfg(test)]
mod named;
#[cfg(test)]
mod naming;
#[cfg(test)]
mod notes;
#[cfg(test)]
mod relay;
#[cfg(test)]
mod requests;
#[cfg(test)]
mod retrying;
#[cfg(test)]
mod rival;
#[cfg(test)]
mod serving;
#[cfg(test)]
mod views;
