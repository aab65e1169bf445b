//! What is done with each key that the source changed.

ghost use Rattle.std.specs.Prelude.{IfOk, ◌≡◌, map};
ghost use Rattle.cat_model.specs.Plan;
ghost use Rattle.cat_merge.specs.Decisions;

use crate::modes::behaviour_of;
use cat_codes::fault::NoMemory;
use cat_codes::seq::Seq;
use cat_keymap::key_map::KeyMap;
use cat_model::conflict::{ConflictKind, differs};
use cat_model::entry::Entry;
use cat_model::merging::{Behaviour, Modes};
use cat_names::key::ContentKey;
use std::alloc::Global;

/// What is done with a key.
#[derive(Clone, Copy)]
pub(crate) enum Decision {
    /// The target's entry stays.
    Keeps,
    /// The source's entry is set, or the key goes.
    Sets(Option<Entry>),
    /// The target has changed too.
    Clashes(ConflictKind),
}

/// A key that the source changed, and what is done with it.
#[derive(Drop)]
pub(crate) struct Decided {
    pub(crate) key: ContentKey,
    pub(crate) behaviour: Behaviour,
    pub(crate) decision: Decision,
}

fn unless_changed(source: &Option<Entry>, changed: Option<ConflictKind>) -> Decision
    ensures { result ≡ Decisions.as_code (Plan.unless_changed source.now changed) }
{
    match changed {
        None => Decision::Sets(*source),
        Some(kind) => Decision::Clashes(kind),
    }
}

/// What is done with a key, by its entries at base, source and target.
fn decision_of(
    behaviour: Behaviour,
    base: &Option<Entry>,
    source: &Option<Entry>,
    target: &Option<Entry>,
) -> Decision
    ensures { result ≡ Decisions.as_code (Plan.decision behaviour base.now source.now target.now) }
{
    let is_same = differs(source, target).is_none();
    match behaviour {
        Behaviour::Drop => Decision::Keeps,
        _ if is_same => Decision::Keeps,
        Behaviour::Force => Decision::Sets(*source),
        Behaviour::Normal => unless_changed(source, differs(base, target)),
    }
}

fn decided_at(
    base: &KeyMap,
    source: &KeyMap,
    target: &KeyMap,
    modes: &Modes,
    key: ContentKey,
) -> Decided
    ensures { result ≡ Decisions.decided_at base.now source.now target.now modes.now key }
{
    let behaviour = behaviour_of(modes, &key);
    let decision = decision_of(
        behaviour,
        &base.get(&key),
        &source.get(&key),
        &target.get(&key),
    );
    Decided {
        key,
        behaviour,
        decision,
    }
}

/// What is done with each of the keys, in their order.
pub(crate) fn decide(
    alloc: Global,
    base: &KeyMap,
    source: &KeyMap,
    target: &KeyMap,
    modes: &Modes,
    keys: Seq<ContentKey>,
) -> Result<Seq<Decided>, NoMemory>
    ensures { IfOk result
        (λ list. list ≡ map (Decisions.decided_at base.now source.now target.now modes.now) keys) }
{
    let mut out = Seq::new(alloc);
    for key in keys.into_vec() {
        out.push(decided_at(base, source, target, modes, key))?;
    }
    Ok(out)
}
