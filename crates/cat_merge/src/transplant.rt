//! The plans of changes in turn.

ghost use Rattle.std.specs.Prelude.{Bool, IfOk, IsTrue, ◌≡◌, [], flat_map, map};
ghost use Rattle.std.specs.List.{list_all};
ghost use Rattle.cat_model.specs.Merges.{entries_set};
ghost use Rattle.cat_model.specs.Namespaces.{is_well_formed};
ghost use Rattle.cat_model.specs.Transplants.{plan_each};
ghost use Rattle.cat_merge.specs.Planned.{AreTouched, AreUpon, map_after, planned, step_of};

use crate::plan::{Plan, plan_merge};
use cat_codes::fault::NoMemory;
use cat_codes::seq::Seq;
use cat_keymap::key_map::KeyMap;
use cat_model::entry::Entry;
use cat_model::merging::Modes;
use cat_names::key::ContentKey;
use std::alloc::Global;

/// What a commit changed: from the map at its parent to the map at it.
#[derive(Drop)]
pub struct Step {
    pub base: KeyMap,
    pub source: KeyMap,
    /// Keys that have those whose entries differ among them, in any order.
    pub touched: Seq<ContentKey>,
}

/// The map that plans leave.
#[tactic(auto, using(crate::proofs::InTurn::map_of_last))]
fn map_after<'a>(target: &'a KeyMap, plans: &'a [Plan]) -> &'a KeyMap
    ensures { result.now ≡ map_after target.now plans.now }
{
    match plans.last() {
        None => target,
        Some(plan) => &plan.map,
    }
}

/// The plans of changes in turn, each onto the map after the one before, also where that one has
/// conflicts. Each costs what its merge does, and two searches for each key that its step touched.
pub fn plan_transplant(
    alloc: Global,
    steps: &[Step],
    target: &KeyMap,
    modes: &Modes,
) -> Result<Vec<Plan>, NoMemory>
    requires { AreTouched steps.now }
    ensures exact { IfOk result
        (λ plans. map planned plans.items
        ≡ plan_each modes.now target.now (map step_of steps.now)) }
    ensures after { IfOk result (λ plans. AreUpon target.now plans.items) }
    ensures well_formed { IsTrue (is_well_formed target.now)
        → IfOk result
        (λ plans. flat_map (λ p. p.conflicts) plans.items ≡ []
        → IsTrue (list_all (λ p. is_well_formed p.map) plans.items)) }
    ensures entries { (passes : Entry → Bool)
        → IsTrue (list_all (λ s. list_all (λ x. passes x.1) s.source) steps.now)
        → IsTrue (list_all (λ x. passes x.1) target.now)
        → IfOk result
        (λ plans. IsTrue (list_all (λ p. list_all (λ x. passes x.1) p.map) plans.items)) }
    ensures set { (passes : Entry → Bool)
        → IsTrue (list_all (λ s. list_all (λ x. passes x.1) s.source) steps.now)
        → IfOk result
        (λ plans. IsTrue
        (list_all (λ p. list_all (λ x. passes x.1) (entries_set p.ops)) plans.items)) }
{
    let mut plans = Vec::new(alloc);
    for step in steps {
        let before = map_after(target, plans.as_slice());
        let touched = step.touched.as_slice();
        let changed = step.base.changed_among(alloc, &step.source, touched)?;
        let plan = plan_merge(alloc, &step.base, &step.source, before, modes, changed)?;
        plans.push(plan)?;
    }
    Ok(plans)
}
