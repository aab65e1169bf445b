//! Open sweeps: what drafts name while one is open, and what is left of it when it is closed.

ghost use Rattle.std.specs.Prelude.{◌≡◌, ◌+◌, ◌≤◌, IfOk, IfSome, OnErr, OnOk, length};
ghost use Rattle.std.specs.Option.{option_map};
ghost use Rattle.cat_model.specs.Sweeps.{hash_set};
ghost use Rattle.cat_core.specs.Noting.{noting};
ghost use Rattle.cat_core.specs.Stored.{HasFronts, sweep_held};
ghost use Rattle.cat_core.specs.Sweeps.{sweep_in};

use crate::tickets::{OpenSweep, Ticket};
use cat_codes::fault::NoMemory;
use cat_codes::seq::Seq;
use cat_model::cutoff::Resolved;
use cat_model::sweep::Sweep;
use cat_names::hash::Hash;

/// The hashes ascending, each once. It takes no memory.
fn set_of(mut hashes: Vec<Hash>) -> Vec<Hash>
    ensures { result.items ≡ hash_set hashes.items }
{
    hashes.sort_unstable();
    hashes.dedup();
    hashes
}

/// Adds names to the sweep, if one is open, or none of them.
pub(crate) fn note(
    sweep: &mut Option<OpenSweep>,
    commits: &[Hash],
    contents: &[Hash],
) -> Result<(), NoMemory>
    requires { IfSome sweep.old HasFronts }
    ensures ok { OnOk result
        (option_map sweep_held sweep.new
        ≡ noting (record { commits = commits.now; contents = contents.now })
        (option_map sweep_held sweep.old)) }
    ensures err { OnErr result
        (option_map sweep_held sweep.new ≡ option_map sweep_held sweep.old) }
    ensures fronts { IfSome sweep.new HasFronts }
{
    let Some(open) = sweep else {
        return Ok(());
    };
    open.contents.reserve(contents.len())?;
    open.commits.extend_from_slice(commits)?;
    let Ok(()) = open.contents.extend_from_slice(contents) else {
        unreachable!()
    };
    Ok(())
}

/// A sweep that is closed: its policy, and its names, ascending, each once.
#[derive(Drop)]
pub(crate) struct Closing {
    pub(crate) ticket: Ticket,
    pub(crate) policy: Resolved,
    pub(crate) commits: Vec<Hash>,
    pub(crate) contents: Vec<Hash>,
}

/// Closes a sweep. It takes no memory.
pub(crate) fn close_sweep(sweep: OpenSweep) -> Closing
    ensures ticket { result.ticket ≡ sweep.ticket }
    ensures policy { result.policy ≡ sweep.policy }
    ensures commits { result.commits.items ≡ hash_set sweep.commits.items }
    ensures contents { result.contents.items ≡ hash_set sweep.contents.items }
{
    let OpenSweep {
        ticket,
        policy,
        commits,
        contents,
        ..
    } = sweep;
    Closing {
        ticket,
        policy,
        commits: set_of(commits),
        contents: set_of(contents),
    }
}

impl Closing {
    /// How many names it had, none counted twice.
    pub(crate) fn count(&self) -> u64
        ensures { result ≡ length self.now.commits.items + length self.now.contents.items }
    {
        self.commits.len() as u64 + self.contents.len() as u64
    }

    /// The sweep as it is logged.
    pub(crate) fn into_sweep(self) -> Result<Sweep, NoMemory>
        ensures { IfOk result (λ sweep. sweep ≡ sweep_in self) }
    {
        let Closing {
            ticket,
            policy,
            commits,
            contents,
        } = self;
        Ok(Sweep {
            opened: ticket.place,
            policy,
            commits: Seq::from_vec(commits)?,
            contents: Seq::from_vec(contents)?,
        })
    }
}
