//! How much a store holds, and what stands on `main`.

ghost use Rattle.std.specs.Prelude.{◌≡◌, length};
ghost use Rattle.cat_model.specs.Chain.{entries};
ghost use Rattle.cat_model.specs.Maps.{entry_of};
ghost use Rattle.cat_state.specs.Counting.{main_head};

use crate::ledger::Ledger;
use cat_model::entry::Entry;
use cat_names::key::ContentKey;
use cat_state::counts::Counts;

impl Ledger {
    /// How much it holds.
    pub fn counts(&self) -> Counts
        ensures place { result.place ≡ self.now.state.place }
        ensures references { result.references ≡ length self.now.state.references }
        ensures commits { result.commits ≡ length self.now.state.commits }
        ensures contents { result.contents ≡ length self.now.state.present }
        ensures keys { result.keys
            ≡ length (entries self.now.state.commits (main_head self.now.state.references)) }
        ensures head { result.head ≡ main_head self.now.state.references }
    {
        self.catalogue().counts()
    }

    /// The entry of a key on `main`.
    pub fn entry_on_main(&self, key: &ContentKey) -> Option<Entry>
        ensures { result
            ≡ entry_of (entries self.now.state.commits (main_head self.now.state.references))
            key.now }
    {
        let head = self.catalogue().main_head();
        self.catalogue().entry_at(&head, key)
    }
}
