//! Draft numbers, and calls that opened a draft, settled by what was built on their branch's head.

ghost use Rattle.std.specs.Prelude.{◌≡◌, ◌<◌, None, Ok, true, false, IfErr, IsTrue, OnOk};
ghost use Rattle.sha2.specs.Sha256.{sha256};
ghost use Rattle.cat_model.specs.Book.{attempt_on};
ghost use Rattle.cat_model.specs.Calls.{in_draft, needs_draft};
ghost use Rattle.cat_model.specs.Step.{opening};
ghost use Rattle.cat_model.specs.WellMade.{is_well_made};
ghost use Rattle.cat_state.specs.Adding.{IsAbove};
ghost use Rattle.cat_state.specs.Kept.{Keeps, reached};
ghost use Rattle.cat_decisions.specs.Builds.{IsBuilt, IsGivenBy, command_of};
ghost use Rattle.cat_core.specs.Making.{Runs, taking};

use crate::ledger::Ledger;
use crate::ledger::logging::Turn;
use cat_decisions::building::Built;
use cat_decisions::call::Call;
use cat_decisions::deciding::decide;
use cat_keeper::Keeper;
use cat_model::limits::Quantity;
use cat_model::moment::Moment;
use cat_model::refusal::Refusal;
use cat_model::reply::Told;
use cat_state::unmade::Unmade;
use std::alloc::Global;

impl Ledger {
    /// A next draft number is left.
    pub fn needs_next(&self) -> Result<(), Refusal>
        ensures test { result ≡ needs_draft self.now.state self.now.draft true }
        ensures below { OnOk result (self.now.draft < 18446744073709551615) }
    {
        let limit = self.catalogue().limits().drafts;
        if self.draft < limit {
            Ok(())
        } else {
            Err(Refusal::Limit {
                which: Quantity::Drafts,
                number: limit,
            })
        }
    }

    /// Takes the draft number of a call whose draft is opened: the last is the greatest.
    pub fn take(&mut self, draft: u64)
        ensures { self.new ≡ taking self.old draft }
    {
        self.draft = self.draft.max(draft);
    }

    /// Settles what a call built on its branch's head: its step in its own draft, which was opened
    /// at a place.
    pub fn settle<K: Keeper>(
        &mut self,
        alloc: Global,
        keeper: &mut K,
        caller: u32,
        moment: Moment,
        number: u64,
        opened: u32,
        call: Call<'_>,
        built: Built,
    ) -> Result<Told, Unmade>
        requires well_made { IsTrue (is_well_made sha256 (command_of call)) }
        requires number { 0 < number }
        requires given { IsGivenBy number call }
        requires opened { opening sha256 self.old.state (command_of call) ≡ Ok tt }
        requires built { IsBuilt self.old.state call built }
        requires up { K.down keeper.old ≡ None }
        requires kept { reached K.Keeper keeper.old ≡ self.old.state.place }
        ensures call { Runs
            (attempt_on sha256 self.old (in_draft caller moment number opened) (command_of call.entry))
            self.old self.new result }
        ensures later { IsAbove self.old.state.commits self.new.state.commits }
        ensures kept { reached K.Keeper keeper.new ≡ self.new.state.place }
        ensures keeps { Keeps K.Keeper keeper.old keeper.new
            (attempt_on sha256 self.old (in_draft caller moment number opened)
            (command_of call.entry)).logged result }
    {
        let turn = Turn {
            caller,
            draft: number,
            opened,
            moment,
        };
        let decided = decide(alloc, self.catalogue(), number, opened, moment, call, built);
        self.carry_out(alloc, keeper, turn, decided)
    }
}
