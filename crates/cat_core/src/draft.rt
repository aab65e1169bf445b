//! Drafts, and what settling one comes to.

ghost use Rattle.std.specs.Prelude.{◌≡◌, Ok, IfOk, IsTrue};
ghost use Rattle.sha2.specs.Sha256.{sha256};
ghost use Rattle.cat_decisions.specs.Builds.{HasHead, IsBuilt, IsGivenBy};
ghost use Rattle.cat_core.specs.Drafts.{command_in};
ghost use Rattle.cat_model.specs.Step.{opening};
ghost use Rattle.cat_model.specs.WellMade.{is_well_made};

use crate::tickets::Ticket;
use cat_codes::fault::NoMemory;
use cat_decisions::building::{Built, build, head_of};
use cat_decisions::call::Call;
use cat_model::refusal::Refused;
use cat_model::reply::Told;
use cat_names::hash::Hash;
use cat_state::view::View;
use std::alloc::Global;

/// A call that has opened a draft, which stays open until it is settled or dropped. What its draft
/// names, and was there at some moment since its opening, stays in the catalogue until then.
pub struct Draft<'a> {
    pub(crate) number: u64,
    pub(crate) caller: u32,
    pub(crate) place: u32,
    pub(crate) call: Call<'a>,
}

/// What settling a draft comes to.
pub enum Settled<'a> {
    /// The call is carried out, and its draft is closed.
    Done(Told),
    /// The call is refused, and its draft is closed.
    Refused(Refused),
    /// The branch has another head than the one that was built on. Nothing is done, and the draft
    /// is open still; the view is of the catalogue as it is.
    Moved(Draft<'a>, View),
}

impl<'a> Draft<'a> {
    /// What the call makes of the head of its branch in a view.
    pub fn build(&self, alloc: Global, view: &View) -> Result<Built, NoMemory>
        requires well_made { IsTrue (is_well_made sha256 (command_in self.now)) }
        requires given { IsGivenBy self.now.number self.now.call }
        requires opened { opening sha256 view.now (command_in self.now) ≡ Ok tt }
        ensures { IfOk result (IsBuilt view.now self.now.call) }
    {
        build(alloc, view, &self.call)
    }

    /// The head of its branch in a view.
    pub fn head_in(&self, view: &View) -> Hash
        requires { opening sha256 view.now (command_in self.now) ≡ Ok tt }
        ensures { HasHead view.now (command_in self.now) result }
    {
        head_of(view.catalogue(), &self.call)
    }
}

/// The ticket of a draft.
pub(crate) fn ticket_of(draft: &Draft<'_>) -> Ticket
    ensures { result
        ≡ record {
          number = draft.now.number;
          caller = draft.now.caller;
          place = draft.now.place;
        } }
{
    Ticket {
        number: draft.number,
        caller: draft.caller,
        place: draft.place,
    }
}
