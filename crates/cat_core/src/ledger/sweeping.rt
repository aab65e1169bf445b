//! Sweeps of a log that is executed again.

ghost use Rattle.std.specs.Prelude.{◌≡◌, ◌<◌, IsTrue, OnOk};
ghost use Rattle.cat_state.specs.Sweeping.{spares_at, sweeping};
ghost use Rattle.cat_tables.specs.References.{heads_pass};
ghost use Rattle.cat_core.specs.Making.{with_entry};

use crate::ledger::Ledger;
use cat_codes::fault::NoMemory;
use cat_model::log_entry::LogEntry;
use cat_names::hash::Hash;
use std::alloc::Global;

impl Ledger {
    /// Removes the contents of these hashes by a sweep whose entry is kept already: that of a log
    /// which is executed again.
    pub(crate) fn sweep_again(
        &mut self,
        alloc: Global,
        entry: LogEntry,
        hashes: &[Hash],
    ) -> Result<(), NoMemory>
        requires log { self.old.state.place < self.old.state.limits.log }
        requires spared { IsTrue
            (heads_pass (spares_at self.old.state.commits hashes.now) self.old.state.references) }
        ensures { OnOk result
            (self.new ≡ with_entry self.old (sweeping self.old.state hashes.now) entry) }
    {
        if self.log.reserve(1).is_err() {
            drop(entry);
            return Err(NoMemory);
        }
        match self.catalogue.apply_sweep(alloc, hashes) {
            Ok(()) => {
                self.log.push_reserved(entry);
                Ok(())
            }
            Err(_) => {
                drop(entry);
                Err(NoMemory)
            }
        }
    }
}
