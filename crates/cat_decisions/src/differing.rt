//! Where the maps at two commits differ.

ghost use Rattle.std.specs.Prelude.{◌≡◌, IfOk};
ghost use Rattle.cat_model.specs.Chain.{entries};
ghost use Rattle.cat_model.specs.Changed.{changed_keys};

use cat_codes::fault::NoMemory;
use cat_codes::seq::Seq;
use cat_keymap::key_map::KeyMap;
use cat_names::hash::Hash;
use cat_names::key::ContentKey;
use cat_state::catalogue::Catalogue;
use std::alloc::Global;

/// The keys whose entries differ at a commit from those at another, ascending, given both maps.
///
/// Where the other is on the commit's chain they are sought among the keys that the commits between
/// them touched, unless commits and keys are more than the maps' own keys: then, and where it
/// isn't, by a walk over both maps.
pub(crate) fn changed_since(
    alloc: Global,
    catalogue: &Catalogue,
    commit: &Hash,
    other: &Hash,
    before: &KeyMap,
    after: &KeyMap,
) -> Result<Seq<ContentKey>, NoMemory>
    requires before { before.now ≡ entries catalogue.now.commits other.now }
    requires after { after.now ≡ entries catalogue.now.commits commit.now }
    ensures { IfOk result (λ keys. keys ≡ changed_keys before.now after.now) }
{
    let most = before.len().saturating_add(after.len());
    match catalogue.commits().touched(alloc, commit, other, most)? {
        None => before.changed(alloc, after),
        Some(touched) => before.changed_among(alloc, after, touched.as_slice()),
    }
}
