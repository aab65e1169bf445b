//! Where keys need namespaces.

ghost use Rattle.std.specs.Prelude.{◌≡◌};
ghost use Rattle.cat_model.specs.Namespaces;
ghost use Rattle.cat_rules.specs.Rules;

use cat_keymap::key_map::{KeyMap, ParentState};
use cat_model::conflict::ConflictKind;
use cat_model::entry::{ContentKind, Entry};
use cat_names::key::ContentKey;

fn is_namespace(entry: &Option<Entry>) -> bool
    ensures { result ≡ Namespaces.is_namespace entry.now }
{
    match entry {
        None => false,
        Some(entry) => entry.kind.number() == ContentKind::Namespace.number(),
    }
}

fn state_fault(state: ParentState) -> Option<ConflictKind>
    ensures { result ≡ Rules.state_fault state }
{
    match state {
        ParentState::Root => None,
        ParentState::Namespace => None,
        ParentState::Absent => Some(ConflictKind::NamespaceAbsent),
        ParentState::Other => Some(ConflictKind::NotANamespace),
    }
}

/// What is wrong with the parent of a key.
#[tactic(auto, using(crate::specs::WellFormed::outside_is))]
fn outside_fault(after: &KeyMap, key: &ContentKey) -> Option<ConflictKind>
    ensures { result ≡ Namespaces.outside_fault after.now key.now }
{
    state_fault(after.parent_state(key))
}

/// A namespace that goes while keys are left below it.
#[tactic(auto, unfolding(cat_model::specs::Namespaces::emptied_fault))]
fn emptied_fault(
    before: &KeyMap,
    after: &KeyMap,
    key: &ContentKey,
    to: &Option<Entry>,
) -> Option<ConflictKind>
    ensures { result ≡ Namespaces.emptied_fault before.now after.now (key.now, to.now) }
{
    if is_namespace(&before.get(key)) && !is_namespace(to) && after.has_child(key) {
        Some(ConflictKind::NamespaceNotEmpty)
    } else {
        None
    }
}

/// What the change of a key breaks of the namespaces, by the maps before and after all changes:
/// the parent of a key that is set must be a namespace, and a namespace that goes has no children.
pub fn namespace_fault(
    before: &KeyMap,
    after: &KeyMap,
    key: &ContentKey,
    to: &Option<Entry>,
) -> Option<ConflictKind>
    ensures { result ≡ Namespaces.namespace_fault before.now after.now (key.now, to.now) }
{
    if to.is_some() {
        if let Some(kind) = outside_fault(after, key) {
            return Some(kind);
        }
    }
    emptied_fault(before, after, key, to)
}
