//! What an action must be so that an entry with it may follow a log.

ghost use Rattle.std.specs.Prelude.{◌≡◌, ◌≤◌, ◌<◌, ◌&&◌, ◌||◌, IfOk, length, nat_le};
ghost use Rattle.std.specs.List.{list_all};
ghost use Rattle.sha2.specs.Sha256.{sha256};
ghost use Rattle.cat_checks.specs.Legal as legal;
ghost use Rattle.cat_graph.specs.Linked.{is_known};

use crate::ledger::Ledger;
use cat_checks::commands::is_well_made;
use cat_codes::fault::NoMemory;
use cat_model::log_entry::Action;
use cat_model::sweep::Sweep;
use cat_names::hash::Hash;
use cat_state::catalogue::Catalogue;
use std::alloc::Global;

/// The most patterns of a sweep's policy.
const MOST_PATTERNS: usize = 1_000;

/// Whether each of the hashes is known.
fn are_known(catalogue: &Catalogue, hashes: &[Hash]) -> bool
    ensures { result ≡ list_all (is_known catalogue.now.commits) hashes.now }
{
    for hash in hashes {
        if !catalogue.commits().is_known(hash) {
            return false;
        }
    }
    true
}

/// Whether a sweep may be logged.
fn may_be_swept(ledger: &Ledger, sweep: &Sweep) -> bool
    ensures { result ≡ legal.may_be_swept sha256 ledger.now sweep.now }
{
    ledger.first() <= sweep.opened
        && sweep.opened <= ledger.place()
        && are_known(ledger.catalogue(), sweep.commits.as_slice())
        && sweep.policy.cutoffs.len() <= MOST_PATTERNS
}

/// Whether an action may be logged.
pub(crate) fn may_be_done(alloc: Global, ledger: &Ledger, action: &Action) -> Result<bool, NoMemory>
    ensures { IfOk result (λ b. b ≡ legal.may_be_done sha256 ledger.now action.now) }
{
    match action {
        Action::Call(command) => is_well_made(alloc, command),
        Action::Sweep(sweep) => Ok(may_be_swept(ledger, sweep)),
    }
}
