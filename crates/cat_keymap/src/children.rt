//! Keys within one another.

ghost use Rattle.std.specs.Prelude.{◌≡◌};
ghost use Rattle.cat_model.specs.Keys;
ghost use Rattle.cat_model.specs.Maps.{IsMap};
ghost use Rattle.cat_model.specs.Namespaces;

use crate::key_map::KeyMap;
use cat_names::key::{ContentKey, Element};

/// Whether a key begins with the elements.
#[tactic(auto, using(crate::proofs::Within::begins))]
pub(crate) fn begins_with(key: &[Element], front: &[Element]) -> bool
    ensures { result ≡ Keys.begins_with key.now front.now }
{
    key.starts_with(front)
}

/// Whether a key properly begins with the elements of another.
fn is_child(key: &[Element], of: &[Element]) -> bool
    ensures { result ≡ Keys.is_child key.now of.now }
{
    begins_with(key, of) && key != of
}

/// Whether a key of the map is a child: the first key above would be one.
pub(crate) fn has_child(map: &KeyMap, key: &ContentKey) -> bool
    requires { IsMap map.now }
    ensures { result ≡ Namespaces.has_child map.now key.now }
{
    let mut above = map.walk_from(key);
    let _ = above.take(key);
    match above.peek() {
        None => false,
        Some((first, _)) => is_child(first.elements(), key.elements()),
    }
}
