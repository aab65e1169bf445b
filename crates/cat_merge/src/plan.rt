//! The plan of a merge.

ghost use Rattle.std.specs.Prelude.{Bool, IfOk, IsTrue, None, ◌≡◌, []};
ghost use Rattle.std.specs.List.{list_all};
ghost use Rattle.cat_model.specs.Changed.{changed_keys};
ghost use Rattle.cat_model.specs.Maps.{after_changes};
ghost use Rattle.cat_model.specs.Merges.{entries_set};
ghost use Rattle.cat_model.specs.Namespaces.{is_well_formed};
ghost use Rattle.cat_model.specs.Plan.{plan, plan_of};
ghost use Rattle.cat_keymap.specs.Ordered.{rise};
ghost use Rattle.cat_merge.specs.Planned.{planned};

use crate::deciding::decide;
use crate::finding::{changes, conflicts, details};
use cat_codes::ascending::Ascending;
use cat_codes::fault::NoMemory;
use cat_codes::seq::Seq;
use cat_keymap::key_map::KeyMap;
use cat_model::commit::Meta;
use cat_model::conflict::Conflict;
use cat_model::entry::Entry;
use cat_model::merging::{Detail, Modes};
use cat_names::hash::Hash;
use cat_names::key::ContentKey;
use std::alloc::Global;

/// What a merge would do.
#[derive(Drop)]
pub struct Plan {
    /// Of each key that the source changed since the base, ascending.
    pub details: Seq<Detail>,
    /// Those among them, keys ascending.
    pub conflicts: Seq<Conflict>,
    /// The changes of the target, keys ascending.
    pub ops: Ascending<ContentKey, Option<Entry>>,
    /// The target's map after them.
    pub map: KeyMap,
}

/// A plan, and what is said of the commit that it makes.
#[derive(Drop)]
pub struct Planned {
    /// The other parent, where a commit is merged.
    pub merge_parent: Option<Hash>,
    pub meta: Meta,
    pub plan: Plan,
}

/// The plan for these keys.
fn plan_keys(
    alloc: Global,
    base: &KeyMap,
    source: &KeyMap,
    target: &KeyMap,
    modes: &Modes,
    keys: Seq<ContentKey>,
) -> Result<Plan, NoMemory>
    requires { IsTrue (rise None keys) }
    ensures { IfOk result (λ p. planned p ≡ plan_of base.now source.now target.now modes.now keys) }
{
    let decided = decide(alloc, base, source, target, modes, keys)?;
    let ops = changes(alloc, decided.as_slice())?;
    let map = target.with_changes(alloc, &ops)?;
    let details = details(alloc, target, &map, decided)?;
    let conflicts = conflicts(alloc, details.as_slice())?;
    Ok(Plan {
        details,
        conflicts,
        ops,
        map,
    })
}

/// What a merge of the source into the target does, given the map at their base, and the keys whose
/// entries differ in the source. It costs a few searches for each of these keys.
pub fn plan_merge(
    alloc: Global,
    base: &KeyMap,
    source: &KeyMap,
    target: &KeyMap,
    modes: &Modes,
    changed: Seq<ContentKey>,
) -> Result<Plan, NoMemory>
    requires { changed ≡ changed_keys base.now source.now }
    ensures exact { IfOk result (λ p. planned p ≡ plan base.now source.now target.now modes.now) }
    ensures after { IfOk result (λ p. p.map ≡ after_changes p.ops target.now) }
    ensures well_formed { IsTrue (is_well_formed target.now)
        → IfOk result (λ p. p.conflicts ≡ [] → IsTrue (is_well_formed p.map)) }
    ensures set { (passes : Entry → Bool)
        → IsTrue (list_all (λ x. passes x.1) source.now)
        → IfOk result (λ p. IsTrue (list_all (λ x. passes x.1) (entries_set p.ops))) }
    ensures entries { (passes : Entry → Bool)
        → IsTrue (list_all (λ x. passes x.1) source.now)
        → IsTrue (list_all (λ x. passes x.1) target.now)
        → IfOk result (λ p. IsTrue (list_all (λ x. passes x.1) p.map)) }
{
    target.known();
    plan_keys(alloc, base, source, target, modes, changed)
}
