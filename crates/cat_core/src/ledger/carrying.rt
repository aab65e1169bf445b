//! What was decided of calls, carried out.

ghost use Rattle.std.specs.Prelude.{◌≡◌, None, false, IfErr};
ghost use Rattle.cat_model.specs.declared.command.Command.{Command};
ghost use Rattle.cat_state.specs.Adding.{IsAbove};
ghost use Rattle.cat_state.specs.Kept.{Keeps, reached};
ghost use Rattle.cat_core.specs.Deciding.{IsDecided};
ghost use Rattle.cat_core.specs.Making.{Runs};
ghost use Rattle.cat_core.specs.Turns.{turned};

use crate::ledger::Ledger;
use crate::ledger::logging::Turn;
use cat_decisions::decision::Decision;
use cat_keeper::Keeper;
use cat_model::reply::{Reply, Told};
use cat_state::failure::Failure;
use cat_state::unmade::Unmade;
use std::alloc::Global;

impl Ledger {
    /// A reply at the ledger's place.
    pub(crate) fn told(&self, reply: Reply) -> Told
        ensures { result ≡ record { place = self.now.state.place; reply = reply } }
    {
        Told {
            place: self.place(),
            reply,
        }
    }

    /// Carries out what was decided of a call in its turn: a refusal, a reply, or a change. The
    /// draft number is taken in each case.
    pub(crate) fn carry_out<K: Keeper>(
        &mut self,
        alloc: Global,
        keeper: &mut K,
        turn: Turn,
        decided: Result<Decision, Failure>,
    ) -> Result<Told, Unmade>
        requires decided { (command : Command) × IsDecided self.old turn command decided }
        requires up { K.down keeper.old ≡ None }
        requires kept { reached K.Keeper keeper.old ≡ self.old.state.place }
        ensures call { (command : Command) → IsDecided self.old turn command decided
            → Runs (turned self.old turn command) self.old self.new result }
        ensures later { IsAbove self.old.state.commits self.new.state.commits }
        ensures kept { reached K.Keeper keeper.new ≡ self.new.state.place }
        ensures keeps { (command : Command) → IsDecided self.old turn command decided
            → Keeps K.Keeper keeper.old keeper.new (turned self.old turn command).logged result }
    {
        self.take(turn.draft);
        match decided {
            Err(failure) => Err(Unmade::Failed(failure)),
            Ok(Decision::Told(reply)) => Ok(self.told(reply)),
            Ok(Decision::Made(making)) => self.change(alloc, keeper, turn, making),
        }
    }
}
