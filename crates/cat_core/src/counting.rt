//! How much is open in a store.

ghost use Rattle.std.specs.Prelude.{◌≡◌, length};
ghost use Rattle.std.specs.Option.{option_map};

use crate::store::Store;
use cat_keeper::Keeper;

impl<K: Keeper> Store<K> {
    /// How many drafts are open. It takes no memory.
    pub fn drafts(&self) -> usize
        ensures { result ≡ length self.now.left_open.drafts }
    {
        self.drafts.len()
    }

    /// The place at which the open sweep was opened, if one is open. It takes no memory.
    pub fn sweeping(&self) -> Option<u32>
        ensures { result ≡ option_map (λ o. o.opening.place) self.now.left_open.sweep }
    {
        match &self.sweep {
            None => None,
            Some(open) => Some(open.ticket.place),
        }
    }
}
