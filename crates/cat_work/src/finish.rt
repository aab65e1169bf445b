//! The last attempt of a call.
ghost use Rattle.std.specs.Prelude.{◌≡◌, ◌≤◌, ◌<◌, [], ◌∷◌, ◌++◌, Some, IsTrue, vec_len, vec_capacity};
ghost use Rattle.sha2.specs.Sha256.{sha256};
ghost use Rattle.cat_decisions.specs.Builds.{IsBuilt, IsGivenBy};
ghost use Rattle.cat_checks.specs.Histories.{IsLegalFrom};
ghost use Rattle.cat_core.specs.Drafts.{IsOpen, command_in, open_draft_of};
ghost use Rattle.cat_core.specs.Stored.{open_of, snap};
ghost use Rattle.cat_desk.specs.Pass.{IsFree, Keeps, known, seen, turn_of};
ghost use Rattle.cat_model.specs.declared.refusal.Refusal.TheVariants.{RetriesSpent};
ghost use Rattle.cat_model.specs.Drafts.{drafts_of};
ghost use Rattle.cat_model.specs.Later.{IsLater};
ghost use Rattle.cat_model.specs.State.{State};
ghost use Rattle.cat_model.specs.Turns.{Acts, place_after};
ghost use Rattle.cat_model.specs.WellMade.{is_well_made};
ghost use Rattle.cat_work.specs.Turns.{Finishes, SettlesLast, Tries};

use crate::attempts::out_of_memory;
use crate::trying::Trying;
use crate::turns::give_up;
use cat_codes::seq::Seq;
use cat_core::{Built, Draft, Settled, Store};
use cat_desk::{Desk, Gate, Pass};
use cat_keeper::Keeper;
use cat_model::moment::Moment;
use cat_model::refusal::{Refusal, Refused};
use cat_model::reply::Told;
use cat_names::hash::Hash;
use std::alloc::Global;
use std::sync::Wait;

/// The refusal of a call whose branch had moved at each attempt, by the places and heads that these
/// met.
fn retries_spent(mut pairs: Vec<(u32, Hash)>, place: u32, head: Hash) -> Refused
    requires room { vec_len pairs < vec_capacity pairs }
    requires few { vec_len pairs ≤ 64 }
    ensures { result
        ≡ record { place = Some place; why = RetriesSpent (pairs.items ++ (place, head) ∷ []) } }
{
    let Ok(()) = pairs.push((place, head)) else {
        unreachable!()
    };
    match Seq::from_vec(pairs) {
        Ok(pairs) => Refused {
            place: Some(place),
            why: Refusal::RetriesSpent(pairs),
        },
        Err(_) => unreachable!(),
    }
}

/// Settles a draft, or drops it where the head has moved again.
fn settle_or_drop<K: Keeper>(
    alloc: Global,
    store: &mut Store<K>,
    draft: Draft<'_>,
    built: Built,
    moment: Moment,
    pairs: Vec<(u32, Hash)>,
) -> Result<Told, Refused>
    requires well_made { IsTrue (is_well_made sha256 (command_in draft)) }
    requires given { IsGivenBy draft.number draft.call }
    requires open { IsOpen (open_draft_of draft)
        (drafts_of draft.caller (open_of store.old).drafts) }
    requires built { (v : State) × IsLater v store.old.book.state × IsBuilt v draft.call built }
    requires room { vec_len pairs < vec_capacity pairs }
    requires few { vec_len pairs ≤ 64 }
    ensures settles { SettlesLast store.old draft.entry built pairs.items moment result store.new }
    ensures acts { Acts IsLegalFrom draft.entry.caller (snap store.old) (snap store.new) }
{
    match store.settle(alloc, draft, built, moment) {
        Settled::Done(told) => Ok(told),
        Settled::Refused(refused) => Err(refused),
        Settled::Moved(draft, view) => {
            let place = view.place();
            let head = draft.head_in(&view);
            drop(view);
            store.drop_draft(draft);
            Err(retries_spent(pairs, place, head))
        }
    }
}

/// The last attempt: its turn settles the draft, or drops it.
pub(crate) fn finish<R: Wait, K: Keeper, G: Gate>(
    rt: &R,
    alloc: Global,
    desk: &Desk<Store<K>>,
    pass: &mut Pass,
    gate: &mut G,
    attempt: u32,
    moment: Moment,
    trying: Trying<'_>,
) -> Result<Told, Refused>
    requires free { IsFree desk.now pass.old }
    requires gate { G.ready gate.old }
    requires well_made { IsTrue (is_well_made sha256 (command_in trying.draft)) }
    requires tries { Tries desk.now pass.old trying.draft trying.view trying.pairs.items }
    requires room { vec_len trying.pairs < vec_capacity trying.pairs }
    requires few { vec_len trying.pairs ≤ 64 }
    ensures kept { Keeps desk.now pass.old pass.new }
    ensures gate { G.ready gate.new × (G.desks gate.new ≡ G.desks gate.old) }
    ensures known { (known pass.old ≤ place_after desk.now.opened (seen pass.new))
        × (known pass.new ≡ place_after desk.now.opened (seen pass.new)) }
    ensures turn { turn_of pass.old < turn_of pass.new }
    ensures legal { IsLegalFrom desk.now.opened (seen pass.new) }
    ensures finishes { Finishes K desk.now pass.old pass.new moment trying.entry result }
{
    let Trying { draft, view, pairs } = trying;
    let built = draft.build(alloc, &view);
    drop(view);
    let Ok(built) = built else {
        give_up(rt, desk, pass, draft);
        return Err(out_of_memory());
    };
    gate.between(pass, attempt);
    let mut held = desk.enter(rt, pass);
    held.value.history();
    let answer = settle_or_drop(alloc, &mut held.value, draft, built, moment, pairs);
    held.value.history();
    desk.leave(held, pass);
    answer
}
