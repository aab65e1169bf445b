//! What a call adds to a catalogue.

ghost use Rattle.std.specs.Prelude.{◌≡◌};
ghost use Rattle.cat_state.specs.Changing.{AreNewTo, with_additions};

use crate::catalogue::Catalogue;
use cat_keymap::key_map::KeyMap;
use cat_model::commit::Commit;
use cat_model::content::Content;
use cat_tables::batch::Batch;
use std::alloc::Global;

/// Contents and commits that a call adds, each under the hash of its bytes, with the map at each
/// commit. The catalogue has none of these hashes yet.
#[derive(Drop)]
pub struct Additions {
    pub(crate) contents: Batch<Content>,
    pub(crate) commits: Batch<Commit>,
    pub(crate) maps: Batch<KeyMap>,
}

impl Catalogue {
    /// No additions.
    pub fn no_additions(&self, alloc: Global) -> Additions
        ensures none { with_additions self.now result ≡ self.now }
        ensures new { AreNewTo self.now result }
    {
        self.commits().known();
        self.contents().known();
        Additions {
            contents: Batch::new(alloc),
            commits: Batch::new(alloc),
            maps: Batch::new(alloc),
        }
    }
}
