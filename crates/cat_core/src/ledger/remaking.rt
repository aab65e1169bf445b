//! Changes of a log that is executed again.

ghost use Rattle.std.specs.Prelude.{◌≡◌, Ok, IfOk, OnOk};
ghost use Rattle.cat_model.specs.Book.{IsCalled};
ghost use Rattle.cat_model.specs.declared.command.Command.{Command};
ghost use Rattle.cat_decisions.specs.Decisions.{Decides};
ghost use Rattle.cat_state.specs.Changing.{MayBeMade, applied};
ghost use Rattle.cat_core.specs.Deciding.{made_book, made_told};
ghost use Rattle.cat_core.specs.Making.{with_entry};
ghost use Rattle.cat_core.specs.Turns.{turned, turned_step};

use crate::ledger::Ledger;
use crate::ledger::logging::{Turn, entry};
use cat_codes::fault::NoMemory;
use cat_decisions::decision::{Decision, Making};
use cat_model::log_entry::LogEntry;
use cat_model::reply::Told;
use cat_state::change::Change;
use cat_state::shared::SharedCatalogue;
use std::alloc::Global;

impl Ledger {
    /// Makes a change whose entry is kept already: that of a log which is executed again. Where it
    /// fails, nothing is said of the ledger.
    fn remake(
        &mut self,
        alloc: Global,
        spare: &SharedCatalogue,
        entry: LogEntry,
        change: Change,
    ) -> Result<(), NoMemory>
        requires { MayBeMade self.old.state change }
        ensures { OnOk result
            (self.new ≡ with_entry self.old (applied self.old.state change) entry) }
    {
        if self.log.reserve(1).is_err() {
            drop(entry);
            drop(change);
            return Err(NoMemory);
        }
        match self.catalogue.renew(alloc, spare, change) {
            Ok(()) => {
                self.log.push_reserved(entry);
                Ok(())
            }
            Err(_) => {
                drop(entry);
                Err(NoMemory)
            }
        }
    }

    /// Makes the change that a call comes to again, with its entry, and tells the reply at the next
    /// place.
    fn change_again(
        &mut self,
        alloc: Global,
        spare: &SharedCatalogue,
        turn: Turn,
        making: Making,
    ) -> Result<Told, NoMemory>
        requires { MayBeMade self.old.state making.change }
        ensures ok { OnOk result (self.new ≡ made_book self.old turn making) }
        ensures told { IfOk result (λ told. told ≡ made_told self.old making) }
    {
        let Making {
            change,
            command,
            head,
            reply,
        } = making;
        let place = self.place() + 1;
        let made = entry(place, turn, command, head);
        match self.remake(alloc, spare, made, change) {
            Ok(()) => Ok(Told { place, reply }),
            Err(_) => {
                drop(reply);
                Err(NoMemory)
            }
        }
    }

    /// Carries out what was decided of the call of an entry, made again in the entry's turn. The
    /// entry is kept already.
    pub(crate) fn redo(
        &mut self,
        alloc: Global,
        spare: &SharedCatalogue,
        turn: Turn,
        decision: Decision,
    ) -> Result<Told, NoMemory>
        requires { (command : Command)
            × Decides turn.draft self.old.state command (turned_step self.old turn command)
            (Ok decision) }
        ensures { (command : Command)
            → Decides turn.draft self.old.state command (turned_step self.old turn command)
            (Ok decision)
            → IfOk result
            (λ told. IsCalled (turned self.old turn command) self.old self.new (Ok told)) }
    {
        self.take(turn.draft);
        match decision {
            Decision::Told(reply) => Ok(self.told(reply)),
            Decision::Made(making) => self.change_again(alloc, spare, turn, making),
        }
    }
}
