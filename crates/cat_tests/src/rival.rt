//! A gate whose own caller changes the catalogue before a call settles.

ghost use Rattle.std.specs.Prelude.{◌≡◌, IsTrue};
ghost use Rattle.sha2.specs.Sha256.{sha256};
ghost use Rattle.cat_model.specs.WellMade.{is_well_made};
ghost use Rattle.cat_work.specs.Passes.{IsReady};

use cat_core::Store;
use cat_desk::{Desk, Gate, NoGate, Pass};
use cat_io::MemoryClock;
use cat_keeper::MemKeeper;
use cat_model::command::Command;
use cat_work::call;
use std::alloc::Global;
use std::sync::Wait;

/// When it makes its changes.
#[derive(Clone, Copy, PartialEq, Eq)]
pub(crate) enum Acts {
    /// The first before the first attempt.
    Once,
    /// The first before the first attempt, the second before the second.
    EachTime,
    /// Both before the first attempt.
    BothAtOnce,
}

/// It makes changes on a pass of its own. It must be ended.
pub(crate) struct Rival<'a, R> {
    pub(crate) rt: &'a R,
    pub(crate) alloc: Global,
    pub(crate) desk: &'a Desk<Store<MemKeeper>>,
    pub(crate) pass: Pass,
    pub(crate) clock: MemoryClock,
    pub(crate) first: Command,
    pub(crate) second: Command,
    pub(crate) acts: Acts,
}

fn acts_second(acts: Acts, attempt: u32) -> bool {
    match acts {
        Acts::Once => false,
        Acts::EachTime => attempt == 2,
        Acts::BothAtOnce => attempt == 1,
    }
}

impl<'a, R: Wait> Rival<'a, R> {
    /// Makes the first change before the first attempt.
    fn change_first(&mut self, attempt: u32)
        requires ready { IsReady self.old.desk.now self.old.pass }
        requires made { IsTrue (is_well_made sha256 self.old.first) }
        ensures ready { IsReady self.new.desk.now self.new.pass }
        ensures stays { (self.new.desk ≡ self.old.desk)
            × (self.new.first ≡ self.old.first)
            × (self.new.second ≡ self.old.second) }
    {
        if attempt == 1 {
            drop(call(
                self.rt,
                self.alloc,
                self.desk,
                &mut self.pass,
                &mut NoGate {},
                &mut self.clock,
                8,
                &self.first,
            ));
        }
    }

    /// Makes the second change when it is due.
    fn change_second(&mut self, attempt: u32)
        requires ready { IsReady self.old.desk.now self.old.pass }
        requires made { IsTrue (is_well_made sha256 self.old.second) }
        ensures ready { IsReady self.new.desk.now self.new.pass }
        ensures stays { (self.new.desk ≡ self.old.desk)
            × (self.new.first ≡ self.old.first)
            × (self.new.second ≡ self.old.second) }
    {
        if acts_second(self.acts, attempt) {
            drop(call(
                self.rt,
                self.alloc,
                self.desk,
                &mut self.pass,
                &mut NoGate {},
                &mut self.clock,
                8,
                &self.second,
            ));
        }
    }
}

impl<'a, R: Wait> Gate for Rival<'a, R> {
    ghost use Rattle.std.specs.Prelude.{◌≡◌, [], ◌∷◌, IsTrue};
    ghost use Rattle.sha2.specs.Sha256.{sha256};
    ghost use Rattle.cat_model.specs.WellMade.{is_well_made};
    ghost use Rattle.cat_work.specs.Passes.{IsReady};

    ghost ready = { λ r. IsReady r.desk.now r.pass
        × IsTrue (is_well_made sha256 r.first)
        × IsTrue (is_well_made sha256 r.second) };

    ghost desks = { λ r. r.desk.now ∷ [] };

    fn between(&mut self, _pass: &Pass, attempt: u32) {
        self.change_first(attempt);
        self.change_second(attempt);
    }
}

impl<'a, R> Rival<'a, R> {
    /// Gives the pass back.
    pub(crate) fn end(self) -> Pass
        ensures { result ≡ self.entry.pass }
    {
        let Rival {
            rt: _,
            alloc: _,
            desk: _,
            pass,
            clock: _,
            first,
            second,
            acts: _,
        } = self;
        drop(first);
        drop(second);
        pass
    }
}
