//! The calls of a store.

ghost use Rattle.std.specs.Prelude.{◌≡◌, None, false, IfErr, IsTrue};
ghost use Rattle.sha2.specs.Sha256.{sha256};
ghost use Rattle.cat_model.specs.Book.{Reads, call_on};
ghost use Rattle.cat_model.specs.Step.{opens_draft};
ghost use Rattle.cat_model.specs.WellMade.{is_well_made};
ghost use Rattle.cat_state.specs.Adding.{IsAbove};
ghost use Rattle.cat_state.specs.Kept.{Keeps, reached};
ghost use Rattle.cat_core.specs.Making.{Runs, refused_at};

use crate::ledger::Ledger;
use crate::ledger::logging::Turn;
use cat_answers::answer;
use cat_decisions::reference::decide_reference;
use cat_keeper::Keeper;
use cat_model::ask::Ask;
use cat_model::command::Command;
use cat_model::moment::Moment;
use cat_model::refusal::{Refusal, Refused};
use cat_model::reply::Told;
use cat_state::failure::Failure;
use cat_state::unmade::Unmade;
use std::alloc::Global;

/// A call's refusal at a place; want of memory has none.
pub fn refused(place: u32, failure: Failure) -> Refused
    ensures { result ≡ refused_at place failure }
{
    match failure {
        Failure::Refused(why) => Refused {
            place: Some(place),
            why,
        },
        Failure::NoMemory => Refused {
            place: None,
            why: Refusal::NoMemory,
        },
    }
}

impl Ledger {
    /// How many entries its log has.
    pub fn place(&self) -> u32
        ensures { result ≡ self.now.state.place }
    {
        self.catalogue().place()
    }

    /// Answers a reading call.
    pub fn read(&self, alloc: Global, ask: &Ask) -> Result<Told, Refused>
        ensures { Reads sha256 self.now ask.now result }
    {
        match answer(alloc, self.catalogue(), ask) {
            Ok(reply) => Ok(Told {
                place: self.place(),
                reply,
            }),
            Err(failure) => Err(refused(self.place(), failure)),
        }
    }

    /// Makes a call that opens no draft.
    pub fn refer<K: Keeper>(
        &mut self,
        alloc: Global,
        keeper: &mut K,
        caller: u32,
        moment: Moment,
        command: &Command,
    ) -> Result<Told, Unmade>
        requires well_made { IsTrue (is_well_made sha256 command.now) }
        requires none { opens_draft command.now ≡ false }
        requires up { K.down keeper.old ≡ None }
        requires kept { reached K.Keeper keeper.old ≡ self.old.state.place }
        ensures call { Runs (call_on sha256 caller self.old command.now moment) self.old self.new
            result }
        ensures later { IsAbove self.old.state.commits self.new.state.commits }
        ensures kept { reached K.Keeper keeper.new ≡ self.new.state.place }
        ensures keeps { Keeps K.Keeper keeper.old keeper.new
            (call_on sha256 caller self.old command.now moment).logged result }
    {
        let turn = Turn {
            caller,
            draft: 0,
            opened: self.place(),
            moment,
        };
        let decided = decide_reference(alloc, self.catalogue(), command);
        self.carry_out(alloc, keeper, turn, decided)
    }
}
