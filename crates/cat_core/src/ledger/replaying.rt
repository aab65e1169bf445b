//! The calls of entries, made again.

ghost use Rattle.std.specs.Prelude.{◌≡◌, IsTrue};
ghost use Rattle.cat_model.specs.declared.log_entry.Action.TheVariants as actions;
ghost use Rattle.sha2.specs.Sha256.{sha256};
ghost use Rattle.cat_checks.specs.Legal.{has_its_draft, replayed_call};
ghost use Rattle.cat_model.specs.Step.{opens_draft};
ghost use Rattle.cat_model.specs.WellMade.{is_well_made};
ghost use Rattle.cat_decisions.specs.Decisions.{Decides};
ghost use Rattle.cat_core.specs.Remaking.{Remakes, comes_again};

use crate::ledger::Ledger;
use crate::ledger::logging::Turn;
use cat_decisions::building::build;
use cat_decisions::call::call_of;
use cat_decisions::deciding::decide;
use cat_decisions::decision::Decision;
use cat_decisions::reference::decide_reference;
use cat_model::command::Command;
use cat_model::log_entry::LogEntry;
use cat_model::reply::Told;
use cat_state::failure::Failure;
use cat_state::shared::SharedCatalogue;
use std::alloc::Global;

impl Ledger {
    /// What the call of an entry comes to, where it opens a draft: it is opened, built and settled.
    fn decide_drafted(
        &self,
        alloc: Global,
        entry: &LogEntry,
        command: &Command,
    ) -> Result<Decision, Failure>
        requires well_made { IsTrue (is_well_made sha256 command.now) }
        requires opens { IsTrue (opens_draft command.now) }
        ensures { Decides entry.now.draft self.now.state command.now
            (comes_again self.now entry.now command.now) result }
    {
        let call = call_of(alloc, entry.draft, command)?;
        call.open(self.catalogue())?;
        let view = self.view()?;
        let built = build(alloc, &view, &call)?;
        decide(
            alloc,
            self.catalogue(),
            entry.draft,
            self.place(),
            entry.moment,
            call,
            built,
        )
    }

    /// What the call of an entry comes to, in the entry's own draft.
    fn decide_again(
        &self,
        alloc: Global,
        entry: &LogEntry,
        command: &Command,
    ) -> Result<Decision, Failure>
        requires { IsTrue (is_well_made sha256 command.now) }
        ensures { Decides entry.now.draft self.now.state command.now
            (comes_again self.now entry.now command.now) result }
    {
        match command {
            Command::Create(_) | Command::Assign(_) | Command::Delete(_) => {
                decide_reference(alloc, self.catalogue(), command)
            }
            Command::Commit(_) | Command::Merge(_) | Command::Transplant(_) => {
                self.decide_drafted(alloc, entry, command)
            }
        }
    }

    /// Makes the call of an entry of a log again, in its own draft. Where it is refused, or memory
    /// runs out, nothing is said of the ledger.
    pub fn replay(
        &mut self,
        alloc: Global,
        spare: &SharedCatalogue,
        entry: &LogEntry,
        command: &Command,
    ) -> Result<Told, Failure>
        requires call { entry.now.action ≡ actions.Call command.now }
        requires well_made { IsTrue (is_well_made sha256 command.now) }
        requires own_draft { IsTrue (has_its_draft entry.now) }
        ensures call { Remakes (replayed_call sha256 self.old entry.now) self.old self.new result }
    {
        let decision = self.decide_again(alloc, entry, command)?;
        let turn = Turn {
            caller: 0,
            draft: entry.draft,
            opened: self.place(),
            moment: entry.moment,
        };
        let told = self.redo(alloc, spare, turn, decision)?;
        Ok(told)
    }
}
