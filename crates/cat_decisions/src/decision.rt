//! What a call comes to on a catalogue that is only read.

ghost use Rattle.std.specs.Prelude.{◌≡◌, IfOk};

use cat_codes::fault::NoMemory;
use cat_model::command::Command;
use cat_model::reference::Reference;
use cat_model::reply::Reply;
use cat_names::hash::Hash;
use cat_state::change::Change;

/// A change that a call comes to, and what its entry is made of.
#[derive(Drop)]
pub struct Making {
    pub change: Change,
    /// The call as it is logged.
    pub command: Command,
    /// The head that its reference is left with; none where it is removed.
    pub head: Option<Hash>,
    pub reply: Reply,
}

/// What a call comes to, once nothing refuses it.
#[derive(Drop)]
pub enum Decision {
    /// A reply without a change.
    Told(Reply),
    /// A change, with its reply.
    Made(Making),
}

/// The reference at a head.
pub fn at_head(reference: &Reference, head: Hash) -> Result<Reference, NoMemory>
    ensures { IfOk result (λ r. r ≡ record reference.now { head = head }) }
{
    Ok(Reference {
        name: reference.name.clone()?,
        kind: reference.kind,
        head,
    })
}
