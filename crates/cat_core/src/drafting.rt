//! Calls that open a draft: opened in one turn, settled or dropped in a later one.

ghost use Rattle.std.specs.Prelude.{◌≡◌, ◌+◌, Ok, Some, true, IfErr, IfOk, IsTrue, OnErr, OnOk};
ghost use Rattle.sha2.specs.Sha256.{sha256};
ghost use Rattle.cat_decisions.specs.Builds.{HasHead, IsBuilt, IsGivenBy, command_of};
ghost use Rattle.cat_checks.specs.Histories.{IsLegalFrom};
ghost use Rattle.cat_core.specs.Drafts.{IsGivenBack, IsOpen, IsOpening, NotOpened, Settles, called_in, closed, command_in, dropping, holding, is_expired, may_open, open_draft_of};
ghost use Rattle.cat_core.specs.Gone.{TellsGone};
ghost use Rattle.cat_core.specs.Kept.{IsSettled, IsTold, KeepsSettled};
ghost use Rattle.cat_core.specs.Stored.{IsFree, IsUp, snap};
ghost use Rattle.cat_state.specs.Kept.{Leaves};
ghost use Rattle.cat_model.specs.Book.{attempt_on};
ghost use Rattle.cat_model.specs.Calls.{in_draft};
ghost use Rattle.cat_model.specs.Drafts.{drafts_of};
ghost use Rattle.cat_model.specs.Later.{IsLater};
ghost use Rattle.cat_model.specs.Mark.{FailedAppend};
ghost use Rattle.cat_model.specs.State.{State};
ghost use Rattle.cat_model.specs.Step.{opening, opens_draft};
ghost use Rattle.cat_model.specs.Turns.{Acts};
ghost use Rattle.cat_model.specs.WellMade.{is_well_made};
ghost use Rattle.cat_state.specs.Giving.{GivesAs};

use crate::closing::note;
use crate::draft::{Draft, Settled, ticket_of};
use crate::ledger::{Ledger, refused};
use crate::store::Store;
use crate::telling::{down_at, no_memory, tell};
use crate::tickets::{OpenDraft, Ticket, remove};
use cat_codes::fault::NoMemory;
use cat_decisions::building::{Built, head_of};
use cat_decisions::call::{Call, call_of};
use cat_keeper::Keeper;
use cat_model::command::Command;
use cat_model::moment::Moment;
use cat_model::refusal::{Refusal, Refused};
use cat_model::reply::Told;
use cat_state::failure::Failure;
use cat_state::view::View;
use std::alloc::Global;

/// Whether contents are gone.
fn is_expired(why: &Refusal) -> bool
    ensures { result ≡ is_expired why.now }
{
    matches!(why, Refusal::Expired { .. })
}

/// The number of the next draft, the call in it, and a view of the catalogue, unless a test before
/// the draft refuses.
fn opened<'a>(
    alloc: Global,
    ledger: &Ledger,
    command: &'a Command,
) -> Result<(u64, Call<'a>, View), Failure>
    requires opens { IsTrue (opens_draft command.now) }
    ensures tests { GivesAs (λ _. tt) result (may_open ledger.now command.now) }
    ensures number { IfOk result (λ o. o.0 ≡ ledger.now.draft + 1) }
    ensures command { IfOk result (λ o. command_of o.1 ≡ command.now) }
    ensures given { IfOk result (λ o. IsGivenBy o.0 o.1) }
    ensures view { IfOk result (λ o. o.2 ≡ ledger.now.state) }
{
    let number = ledger.draft().saturating_add(1);
    let call = call_of(alloc, number, command)?;
    let view = ledger.view()?;
    call.open(ledger.catalogue())?;
    ledger.needs_next()?;
    Ok((number, call, view))
}

impl<K: Keeper> Store<K> {
    /// Keeps the draft of a call, under the next number, with what it names, which the sweep has to
    /// keep too that is open.
    fn hold(&mut self, alloc: Global, ticket: Ticket, call: &Call<'_>) -> Result<(), NoMemory>
        requires next { ticket.number ≡ self.old.book.draft + 1 }
        requires place { ticket.place ≡ self.old.book.state.place }
        requires given { IsGivenBy ticket.number call.now }
        requires opened { opening sha256 self.old.book.state (command_of call.now) ≡ Ok tt }
        ensures held { OnOk result (self.new ≡ holding self.old ticket (command_of call.now)) }
        ensures stays { OnErr result (self.new ≡ self.old) }
    {
        self.knows_heads();
        let (commits, contents) = call.names(alloc)?;
        self.drafts.reserve(1)?;
        note(&mut self.sweep, commits.as_slice(), contents.as_slice())?;
        self.drafts.push_reserved(OpenDraft {
            ticket,
            commits,
            contents,
        });
        self.ledger.take(ticket.number);
        self.drafter = ticket.caller;
        Ok(())
    }

    /// Opens a draft for a call, with a view of the catalogue as it is. What its draft names, and
    /// was there at some moment since its opening, is kept until the draft is closed.
    pub fn open_draft<'a>(
        &mut self,
        alloc: Global,
        caller: u32,
        command: &'a Command,
    ) -> Result<(Draft<'a>, View), Refused>
        requires well_made { IsTrue (is_well_made sha256 command.now) }
        requires opens { opens_draft command.now ≡ true }
        ensures opened { IfOk result (λ t. IsOpening caller command.now self.old self.new t.0 t.1) }
        ensures refused { IfErr result
            (λ r. (self.new ≡ self.old) × NotOpened self.old command.now r r.why) }
        ensures acts { Acts IsLegalFrom caller (snap self.old) (snap self.new) }
    {
        self.is_sound();
        let place = self.ledger.place();
        if let Some(count) = self.down() {
            return Err(down_at(place, count));
        }
        match opened(alloc, &self.ledger, command) {
            Ok((number, call, view)) => {
                let ticket = Ticket {
                    number,
                    caller,
                    place,
                };
                match self.hold(alloc, ticket, &call) {
                    Ok(()) => Ok((
                        Draft {
                            number,
                            caller,
                            place,
                            call,
                        },
                        view,
                    )),
                    Err(_) => Err(no_memory()),
                }
            }
            Err(failure) => Err(refused(place, failure)),
        }
    }

    /// Closes a draft, whose call comes back.
    fn close<'a>(&mut self, draft: Draft<'a>) -> Call<'a>
        requires { IsOpen (open_draft_of draft) (drafts_of draft.caller self.old.left_open.drafts) }
        ensures call { result ≡ draft.entry.call }
        ensures closed { self.new ≡ record self.old { left_open = closed self.old draft.entry } }
        ensures free { IsFree K.Keeper draft.entry.number self.new }
    {
        remove(&mut self.drafts, ticket_of(&draft));
        let Draft {
            number: _,
            caller: _,
            place: _,
            call,
        } = draft;
        call
    }

    /// What holds of what was built on an earlier state, where the branch has that head: it is what
    /// would be built now.
    fn is_built_now(&self, call: &Call<'_>, built: &Built)
        requires opened { opening sha256 self.now.book.state (command_of call.now) ≡ Ok tt }
        requires head { HasHead self.now.book.state (command_of call.now) built.now.head }
        requires built { (v : State) × IsLater v self.now.book.state
            × IsBuilt v call.now built.now }
        ensures on { HasHead self.now.book.state (command_of call.now) built.now.head }
        ensures built { IsBuilt self.now.book.state call.now built.now }
    {
        self.ledger.catalogue().commits_are_linked();
    }

    /// Makes a call of what was built, in its draft, which is closed.
    fn make(
        &mut self,
        alloc: Global,
        caller: u32,
        number: u64,
        opened: u32,
        moment: Moment,
        call: Call<'_>,
        built: Built,
    ) -> Result<Told, Refused>
        requires well_made { IsTrue (is_well_made sha256 (command_of call)) }
        requires given { IsGivenBy number call }
        requires up { IsUp self.old }
        requires free { IsFree K.Keeper number self.old }
        requires opened { opening sha256 self.old.book.state (command_of call) ≡ Ok tt }
        requires built { IsBuilt self.old.book.state call built }
        ensures { IsTold K.Keeper caller self.old self.new
            (attempt_on sha256 self.old.book (in_draft caller moment number opened)
            (command_of call.entry)) result }
    {
        self.knows_heads();
        let place = self.ledger.place();
        let made = self.ledger.settle(
            alloc,
            &mut self.keeper,
            caller,
            moment,
            number,
            opened,
            call,
            built,
        );
        self.ledger.catalogue().commits_are_linked();
        tell(&self.keeper, &mut self.fallen, caller, place, made)
    }

    /// Gives the draft back, whose branch has another head than the one that was built on.
    fn moved<'a>(&mut self, draft: Draft<'a>) -> Settled<'a>
        requires { IsOpen (open_draft_of draft) (drafts_of draft.caller self.old.left_open.drafts) }
        ensures { IsGivenBack self.old draft.entry result self.new }
    {
        match self.ledger.view() {
            Ok(view) => Settled::Moved(draft, view),
            Err(_) => {
                self.close(draft);
                Settled::Refused(no_memory())
            }
        }
    }

    /// Settles a draft by what was built for it.
    fn settled<'a>(
        &mut self,
        alloc: Global,
        draft: Draft<'a>,
        built: Built,
        moment: Moment,
    ) -> Settled<'a>
        requires well_made { IsTrue (is_well_made sha256 (command_in draft)) }
        requires given { IsGivenBy draft.number draft.call }
        requires is_open { IsOpen (open_draft_of draft)
            (drafts_of draft.caller self.old.left_open.drafts) }
        requires built { (v : State) × IsLater v self.old.book.state × IsBuilt v draft.call built }
        ensures { IsSettled K.Keeper self.old self.new draft.entry built moment result }
    {
        let place = self.ledger.place();
        if let Some(count) = self.down() {
            drop(built);
            drop(self.close(draft));
            return Settled::Refused(down_at(place, count));
        }
        if let Err(why) = draft.call.open(self.ledger.catalogue()) {
            drop(built);
            drop(self.close(draft));
            return Settled::Refused(refused(place, Failure::Refused(why)));
        }
        if head_of(self.ledger.catalogue(), &draft.call) != built.head {
            drop(built);
            return self.moved(draft);
        }
        self.is_built_now(&draft.call, &built);
        let ticket = ticket_of(&draft);
        let Ticket {
            number,
            caller,
            place: opened,
        } = ticket;
        let call = self.close(draft);
        match self.make(alloc, caller, number, opened, moment, call, built) {
            Ok(told) => Settled::Done(told),
            Err(refused) => {
                if is_expired(&refused.why) {
                    self.expired = Some(ticket);
                }
                Settled::Refused(refused)
            }
        }
    }

    /// Settles a draft by what was built for it, unless the branch has another head than the one
    /// that was built on. `Done` acknowledges the entry of an accepted call; a `Fault` may have
    /// kept it or not, and each later call is refused as `Down` at the count of faults then.
    /// `Expired` names only keys whose content was there at no moment since the draft's opening. Once
    /// an append has failed, the keeper isn't called any more.
    pub fn settle<'a>(
        &mut self,
        alloc: Global,
        draft: Draft<'a>,
        built: Built,
        moment: Moment,
    ) -> Settled<'a>
        requires well_made { IsTrue (is_well_made sha256 (command_in draft)) }
        requires given { IsGivenBy draft.number draft.call }
        requires is_open { IsOpen (open_draft_of draft)
            (drafts_of draft.caller self.old.left_open.drafts) }
        requires built { (v : State) × IsLater v self.old.book.state × IsBuilt v draft.call built }
        ensures settles { Settles self.old draft.entry built moment result self.new }
        ensures gone { TellsGone self.old draft.entry built.head result }
        ensures acts { Acts IsLegalFrom draft.entry.caller (snap self.old) (snap self.new) }
        ensures keeps { IsUp self.old
            → KeepsSettled K.Keeper self.old.keeper self.new.keeper
            (called_in self.old draft.entry moment).logged result }
        ensures crash { IsUp self.old
            → Leaves K.Keeper self.old.keeper self.new.keeper
            (called_in self.old draft.entry moment).logged }
        ensures rests { (x : FailedAppend) → self.old.mark.fault ≡ Some x
            → self.new.keeper ≡ self.old.keeper }
    {
        self.is_sound();
        self.settled(alloc, draft, built, moment)
    }

    /// Closes a draft, as dropped.
    fn dropped(&mut self, draft: Draft<'_>)
        requires { IsOpen (open_draft_of draft) (drafts_of draft.caller self.old.left_open.drafts) }
        ensures { self.new ≡ dropping self.old draft.entry }
    {
        let ticket = ticket_of(&draft);
        self.close(draft);
        self.dropped = Some(ticket);
    }

    /// Closes a draft that is given up.
    pub fn drop_draft(&mut self, draft: Draft<'_>)
        requires is_open { IsOpen (open_draft_of draft)
            (drafts_of draft.caller self.old.left_open.drafts) }
        ensures dropped { self.new ≡ dropping self.old draft.entry }
        ensures acts { Acts IsLegalFrom draft.entry.caller (snap self.old) (snap self.new) }
    {
        self.is_sound();
        self.dropped(draft);
    }
}
