//! Calls that open no draft.

ghost use Rattle.std.specs.Prelude.{◌≡◌, None, Some, false, IsTrue};
ghost use Rattle.sha2.specs.Sha256.{sha256};
ghost use Rattle.cat_checks.specs.Histories.{IsLegalFrom};
ghost use Rattle.cat_core.specs.Drafts.{Refers};
ghost use Rattle.cat_core.specs.Kept.{IsTold, KeepsTold};
ghost use Rattle.cat_core.specs.Stored.{IsUp, snap};
ghost use Rattle.cat_state.specs.Kept.{Leaves};
ghost use Rattle.cat_model.specs.Book.{call_on};
ghost use Rattle.cat_model.specs.Mark.{FailedAppend};
ghost use Rattle.cat_model.specs.Step.{opens_draft};
ghost use Rattle.cat_model.specs.Turns.{Acts};
ghost use Rattle.cat_model.specs.WellMade.{is_well_made};

use crate::store::Store;
use crate::telling::{down_at, tell};
use cat_keeper::Keeper;
use cat_model::command::Command;
use cat_model::moment::Moment;
use cat_model::refusal::Refused;
use cat_model::reply::Told;
use std::alloc::Global;

impl<K: Keeper> Store<K> {
    /// Makes a call that opens no draft, while the store is up.
    fn refer_up(
        &mut self,
        alloc: Global,
        caller: u32,
        moment: Moment,
        command: &Command,
    ) -> Result<Told, Refused>
        requires well_made { IsTrue (is_well_made sha256 command.now) }
        requires opens { opens_draft command.now ≡ false }
        requires up { IsUp self.old }
        ensures { IsTold K.Keeper caller self.old self.new
            (call_on sha256 caller self.old.book command.now moment) result }
    {
        self.knows_heads();
        let place = self.ledger.place();
        let made = self
            .ledger
            .refer(alloc, &mut self.keeper, caller, moment, command);
        self.ledger.catalogue().commits_are_linked();
        tell(&self.keeper, &mut self.fallen, caller, place, made)
    }

    /// Makes, moves or removes a reference. `Ok` acknowledges the call's entry; a `Fault` may have
    /// kept it or not, and each later call is refused as `Down` at the count of faults then. Once an
    /// append has failed, the keeper isn't called any more.
    pub fn refer(
        &mut self,
        alloc: Global,
        caller: u32,
        moment: Moment,
        command: &Command,
    ) -> Result<Told, Refused>
        requires well_made { IsTrue (is_well_made sha256 command.now) }
        requires opens { opens_draft command.now ≡ false }
        ensures call { Refers (call_on sha256 caller self.old.book command.now moment) caller
            self.old self.new result }
        ensures acts { Acts IsLegalFrom caller (snap self.old) (snap self.new) }
        ensures keeps { IsUp self.old
            → KeepsTold K.Keeper self.old.keeper self.new.keeper
            (call_on sha256 caller self.old.book command.now moment).logged result }
        ensures crash { IsUp self.old
            → Leaves K.Keeper self.old.keeper self.new.keeper
            (call_on sha256 caller self.old.book command.now moment).logged }
        ensures rests { (x : FailedAppend) → self.old.mark.fault ≡ Some x
            → self.new.keeper ≡ self.old.keeper }
    {
        self.is_sound();
        match self.down() {
            Some(count) => Err(down_at(self.ledger.place(), count)),
            None => self.refer_up(alloc, caller, moment, command),
        }
    }
}
