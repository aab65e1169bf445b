//! The behaviour of a key.

ghost use Rattle.std.specs.Prelude.{◌≡◌, IsTrue, None};
ghost use Rattle.cat_codes.specs.Code.{ascends};
ghost use Rattle.cat_names.specs.Fields.{key_cmp};
ghost use Rattle.cat_model.specs.Plan;

use cat_model::merging::{Behaviour, Modes};
use cat_names::key::ContentKey;

fn behaviour_at(
    pairs: &[(ContentKey, Behaviour)],
    default: Behaviour,
    key: &ContentKey,
) -> Behaviour
    requires { IsTrue (ascends key_cmp None pairs.now) }
    ensures { result ≡ Plan.behaviour_at pairs.now default key.now }
{
    match pairs.binary_search_by(|pair| pair.0.cmp(key)) {
        Ok(at) => pairs[at].1,
        Err(_) => default,
    }
}

/// A key's own behaviour, or the default.
pub(crate) fn behaviour_of(modes: &Modes, key: &ContentKey) -> Behaviour
    ensures { result ≡ Plan.behaviour_of modes.now key.now }
{
    modes.keys.known();
    behaviour_at(modes.keys.as_slice(), modes.default, key)
}
