//! The changes that decisions make, and what is found at their keys.

ghost use Rattle.std.specs.Prelude.{IfOk, IsTrue, OnOk, None, ◌≡◌, ◌++◌, map};
ghost use Rattle.cat_codes.specs.Code.{ascends};
ghost use Rattle.cat_names.specs.Fields.{key_cmp};
ghost use Rattle.cat_model.specs.Judge.{conflict_at};
ghost use Rattle.cat_model.specs.Plan.{conflicts_of};
ghost use Rattle.cat_merge.specs.Decisions;

use crate::deciding::{Decided, Decision};
use cat_codes::ascending::Ascending;
use cat_codes::fault::NoMemory;
use cat_codes::seq::Seq;
use cat_keymap::key_map::KeyMap;
use cat_model::conflict::{Conflict, ConflictKind};
use cat_model::entry::Entry;
use cat_model::merging::Detail;
use cat_names::key::ContentKey;
use cat_rules::namespaces::namespace_fault;
use std::alloc::Global;

fn note_change(
    out: &mut Seq<(ContentKey, Option<Entry>)>,
    decided: &Decided,
) -> Result<(), NoMemory>
    ensures { OnOk result (out.new ≡ out.old ++ Decisions.change_of decided.now) }
{
    match decided.decision {
        Decision::Keeps => Ok(()),
        Decision::Sets(entry) => {
            out.push((decided.key.clone()?, entry))?;
            Ok(())
        }
        Decision::Clashes(_) => Ok(()),
    }
}

fn listed_changes(
    alloc: Global,
    decided: &[Decided],
) -> Result<Seq<(ContentKey, Option<Entry>)>, NoMemory>
    ensures { IfOk result (λ list. list ≡ Decisions.changes decided.now) }
{
    let mut out = Seq::new(alloc);
    for one in decided {
        note_change(&mut out, one)?;
    }
    Ok(out)
}

/// The changes of the keys that are set.
pub(crate) fn changes(
    alloc: Global,
    decided: &[Decided],
) -> Result<Ascending<ContentKey, Option<Entry>>, NoMemory>
    requires { IsTrue (ascends key_cmp None (Decisions.changes decided.now)) }
    ensures { IfOk result (λ changes. changes ≡ Decisions.changes decided.now) }
{
    let listed = listed_changes(alloc, decided)?;
    let Some(changes) = Ascending::from_seq(listed) else {
        unreachable!()
    };
    Ok(changes)
}

/// The conflict of a key: that of both changes, or what its change breaks of the namespaces.
fn fault_of(target: &KeyMap, after: &KeyMap, decided: &Decided) -> Option<ConflictKind>
    ensures { result ≡ Decisions.fault_of target.now after.now decided.now }
{
    match decided.decision {
        Decision::Keeps => None,
        Decision::Sets(entry) => namespace_fault(target, after, &decided.key, &entry),
        Decision::Clashes(kind) => Some(kind),
    }
}

fn detail(target: &KeyMap, after: &KeyMap, decided: Decided) -> Detail
    ensures { result ≡ Decisions.detail target.now after.now decided }
{
    let conflict = fault_of(target, after, &decided);
    Detail {
        key: decided.key,
        behaviour: decided.behaviour,
        conflict,
    }
}

/// What is found at the keys, given the map after the changes.
pub(crate) fn details(
    alloc: Global,
    target: &KeyMap,
    after: &KeyMap,
    decided: Seq<Decided>,
) -> Result<Seq<Detail>, NoMemory>
    ensures { IfOk result (λ list. list ≡ map (Decisions.detail target.now after.now) decided) }
{
    let mut out = Seq::new(alloc);
    for one in decided.into_vec() {
        out.push(detail(target, after, one))?;
    }
    Ok(out)
}

fn note_conflict(out: &mut Seq<Conflict>, detail: &Detail) -> Result<(), NoMemory>
    ensures { OnOk result (out.new ≡ out.old ++ conflict_at detail.now.key detail.now.conflict) }
{
    match detail.conflict {
        None => Ok(()),
        Some(kind) => {
            let key = Some(detail.key.clone()?);
            out.push(Conflict { key, kind })?;
            Ok(())
        }
    }
}

/// The conflicts among details.
pub(crate) fn conflicts(alloc: Global, details: &[Detail]) -> Result<Seq<Conflict>, NoMemory>
    ensures { IfOk result (λ list. list ≡ conflicts_of details.now) }
{
    let mut out = Seq::new(alloc);
    for detail in details {
        note_conflict(&mut out, detail)?;
    }
    Ok(out)
}
