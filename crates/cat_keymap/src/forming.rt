//! Whether maps stay well-formed.

ghost use Rattle.std.specs.Prelude.{◌≡◌, IsTrue};
ghost use Rattle.cat_model.specs.Maps.{after_changes};
ghost use Rattle.cat_model.specs.Namespaces;
ghost use Rattle.cat_model.specs.Namespaces.{is_well_formed};
ghost use Rattle.cat_keymap.specs.Forming;
ghost use Rattle.cat_keymap.specs.Forming.{keeps_form};

use crate::key_map::{KeyMap, ParentState};
use cat_codes::ascending::Ascending;
use cat_model::entry::{ContentKind, Entry};
use cat_names::key::ContentKey;

/// Whether an entry is a namespace.
fn is_namespace(entry: &Option<Entry>) -> bool
    ensures { result ≡ Namespaces.is_namespace entry.now }
{
    match entry {
        None => false,
        Some(entry) => entry.kind == ContentKind::Namespace,
    }
}

/// Whether a key with this at its parent may be put.
fn is_home(state: ParentState) -> bool
    ensures { result ≡ Forming.is_home state }
{
    match state {
        ParentState::Root | ParentState::Namespace => true,
        ParentState::Absent | ParentState::Other => false,
    }
}

impl KeyMap {
    /// Whether a key has its parent, where it was put.
    fn has_parent(&self, key: &ContentKey, entry: &Option<Entry>) -> bool
        ensures { result ≡ Forming.has_parent self.now key.now entry.now }
    {
        match entry {
            None => true,
            Some(_) => is_home(self.parent_state(key)),
        }
    }

    /// Whether a change breaks nothing of this map, which is that after all changes: the key has
    /// its parent, where it was put, and none is left below it, where it isn't a namespace.
    fn keeps_form(&self, key: &ContentKey, entry: &Option<Entry>) -> bool
        ensures { result ≡ keeps_form self.now (key.now, entry.now) }
    {
        self.has_parent(key, entry) && (is_namespace(entry) || !self.has_child(key))
    }

    /// Whether this map, which a well-formed one became by changes, is well-formed too. Only what
    /// the changes meet is looked at.
    pub fn stays_well_formed(
        &self,
        before: &KeyMap,
        changes: &Ascending<ContentKey, Option<Entry>>,
    ) -> bool
        requires before { IsTrue (is_well_formed before.now) }
        requires after { self.now ≡ after_changes changes.now before.now }
        ensures { result ≡ is_well_formed self.now }
    {
        before.known();
        changes.known();
        for (key, entry) in changes.as_slice() {
            key.known();
            if !self.keeps_form(key, entry) {
                return false;
            }
        }
        true
    }
}
