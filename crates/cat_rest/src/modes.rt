//! How a merge or a transplant treats keys, in bodies.

ghost use Rattle.std.specs.Prelude.{◌≡◌};
ghost use Rattle.serde_json.specs.View.{view};
ghost use Rattle.cat_json.specs.Reading.{Gives};
ghost use Rattle.cat_names.specs.Fields.{key_cmp};
ghost use Rattle.cat_rest.specs.Modes.{behaviour_as, mode_as, in_order, key_modes_as, modes_as};

use cat_codes::ascending::Ascending;
use cat_codes::seq::Seq;
use cat_json::fault::JsonFault;
use cat_json::read::{ReadForm, absent, defaulted, required};
use cat_model::merging::{Behaviour, Modes};
use cat_names::key::ContentKey;
use serde_json::Value;
use std::alloc::Global;
use std::cmp::Ordering;

/// The form of a behaviour.
struct BehaviourForm;

/// The form of the behaviour of one key.
struct ModeForm;

/// The form of the behaviours of keys, each key once.
struct KeyModesForm;

impl ReadForm for BehaviourForm {
    type Of = Behaviour;

    ghost reads = { behaviour_as };

    fn from_json(_alloc: Global, value: &Value) -> Result<Behaviour, JsonFault> {
        match value.as_str() {
            Some("NORMAL") => Ok(Behaviour::Normal),
            Some("FORCE") => Ok(Behaviour::Force),
            Some("DROP") => Ok(Behaviour::Drop),
            _ => Err(JsonFault::Bad),
        }
    }
}

impl ReadForm for ModeForm {
    type Of = (ContentKey, Behaviour);

    ghost reads = { mode_as };

    #[tactic(auto, unfolding(crate::specs::Modes::mode_as))]
    fn from_json(alloc: Global, value: &Value) -> Result<(ContentKey, Behaviour), JsonFault> {
        let key = required::<ContentKey>(alloc, value, "key")?;
        let behaviour = required::<BehaviourForm>(alloc, value, "mergeBehavior")?;
        absent(value, "expectedTargetContent")?;
        absent(value, "resolvedContent")?;
        Ok((key, behaviour))
    }
}

fn compare(a: &(ContentKey, Behaviour), b: &(ContentKey, Behaviour)) -> Ordering
    ensures { result ≡ key_cmp a.now.0 b.now.0 }
{
    a.0.cmp(&b.0)
}

// The modes with keys ascending, unless a key comes twice. They are sorted once, and each key must
// then come before the next.
fn in_order(
    modes: Seq<(ContentKey, Behaviour)>,
) -> Result<Ascending<ContentKey, Behaviour>, JsonFault>
    ensures { Gives result (in_order modes) }
{
    let mut sorted = modes.into_vec();
    sorted.sort_unstable_by(|a, b| compare(a, b));
    match Ascending::from_seq(Seq::from_vec(sorted)?) {
        Some(modes) => {
            modes.known();
            Ok(modes)
        }
        None => Err(JsonFault::Bad),
    }
}

impl ReadForm for KeyModesForm {
    type Of = Ascending<ContentKey, Behaviour>;

    ghost reads = { key_modes_as };

    fn from_json(
        alloc: Global,
        value: &Value,
    ) -> Result<Ascending<ContentKey, Behaviour>, JsonFault> {
        in_order(Seq::<ModeForm>::from_json(alloc, value)?)
    }
}

/// The behaviours that a body asks for.
#[tactic(auto, unfolding(crate::specs::Modes::modes_as))]
pub(crate) fn modes(alloc: Global, value: &Value) -> Result<Modes, JsonFault>
    ensures { Gives result (modes_as (view value.now)) }
{
    let default = defaulted::<BehaviourForm>(
        alloc,
        value,
        "defaultKeyMergeMode",
        Behaviour::Normal,
    )?;
    let none = Ascending::new(alloc);
    let keys = defaulted::<KeyModesForm>(alloc, value, "keyMergeModes", none)?;
    Ok(Modes { default, keys })
}
