//! Changes that are made, each with its entry.

ghost use Rattle.std.specs.Prelude.{◌≡◌, ◌∷◌, [], None, IfErr, IfOk, IsTrue, OnErr, OnOk};
ghost use Rattle.sha2.specs.Sha256.{sha256};
ghost use Rattle.cat_frames.specs.Entries.{is_logged};
ghost use Rattle.cat_state.specs.Changing.{MayBeMade, applied};
ghost use Rattle.cat_state.specs.Kept.{IsUnrefused, Keeps, reached};
ghost use Rattle.cat_core.specs.Deciding.{made_book, made_entry, made_told};
ghost use Rattle.cat_core.specs.Making.{with_entry};

use crate::ledger::Ledger;
use crate::ledger::logging::{Turn, entry};
use cat_decisions::decision::Making;
use cat_keeper::Keeper;
use cat_model::log_entry::LogEntry;
use cat_model::reply::Told;
use cat_state::change::Change;
use cat_state::failure::Failure;
use cat_state::unmade::Unmade;
use std::alloc::Global;

impl Ledger {
    /// Takes room for an entry in the log, makes the change whole once the keeper has the entry,
    /// and adds the entry to the log, which takes no memory; or changes nothing.
    fn make<K: Keeper>(
        &mut self,
        alloc: Global,
        keeper: &mut K,
        entry: LogEntry,
        change: Change,
    ) -> Result<(), Unmade>
        requires may { MayBeMade self.old.state change }
        requires logged { IsTrue (is_logged sha256 entry) }
        requires up { K.down keeper.old ≡ None }
        requires kept { reached K.Keeper keeper.old ≡ self.old.state.place }
        ensures ok { OnOk result
            (self.new ≡ with_entry self.old (applied self.old.state change) entry) }
        ensures err { OnErr result (self.new ≡ self.old) }
        ensures unrefused { IfErr result IsUnrefused }
        ensures kept { reached K.Keeper keeper.new ≡ self.new.state.place }
        ensures keeps { Keeps K.Keeper keeper.old keeper.new (entry ∷ []) result }
    {
        if self.log.reserve(1).is_err() {
            // By calls, so that the proof doesn't take each kind of command apart at each way out.
            drop(entry);
            drop(change);
            return Err(Unmade::Failed(Failure::NoMemory));
        }
        match self.catalogue.make(alloc, keeper, &entry, change) {
            Ok(()) => {
                self.log.push_reserved(entry);
                Ok(())
            }
            Err(why) => {
                drop(entry);
                Err(why)
            }
        }
    }

    /// Makes the change that a call comes to, with its entry, and tells the reply at the next
    /// place; or changes nothing.
    pub(crate) fn change<K: Keeper>(
        &mut self,
        alloc: Global,
        keeper: &mut K,
        turn: Turn,
        making: Making,
    ) -> Result<Told, Unmade>
        requires may { MayBeMade self.old.state making.change }
        requires logged { IsTrue (is_logged sha256 (made_entry self.old turn making)) }
        requires up { K.down keeper.old ≡ None }
        requires kept { reached K.Keeper keeper.old ≡ self.old.state.place }
        ensures ok { OnOk result (self.new ≡ made_book self.old turn making) }
        ensures told { IfOk result (λ told. told ≡ made_told self.old making) }
        ensures err { OnErr result (self.new ≡ self.old) }
        ensures unrefused { IfErr result IsUnrefused }
        ensures kept { reached K.Keeper keeper.new ≡ self.new.state.place }
        ensures keeps { Keeps K.Keeper keeper.old keeper.new
            (made_entry self.old turn making ∷ []) result }
    {
        let Making {
            change,
            command,
            head,
            reply,
        } = making;
        let place = self.place() + 1;
        let made = entry(place, turn, command, head);
        match self.make(alloc, keeper, made, change) {
            Ok(()) => Ok(Told { place, reply }),
            Err(why) => {
                drop(reply);
                Err(why)
            }
        }
    }
}
