//! How much a catalogue holds, and what stands on `main`.

ghost use Rattle.std.specs.Prelude.{◌≡◌, length};
ghost use Rattle.cat_model.specs.Chain.{entries};
ghost use Rattle.cat_model.specs.Maps.{entry_of};
ghost use Rattle.cat_state.specs.Counting.{main_head};

use crate::catalogue::Catalogue;
use cat_model::entry::Entry;
use cat_names::hash::Hash;
use cat_names::key::ContentKey;
use cat_tables::references::References;

/// How much a catalogue holds.
#[derive(Clone, Copy)]
pub struct Counts {
    /// Entries of its log.
    pub place: u32,
    pub references: u64,
    pub commits: u64,
    pub contents: u64,
    /// Those of the map at `main`'s head.
    pub keys: u64,
    /// `main`'s.
    pub head: Hash,
}

fn main_head(references: &References) -> Hash
    ensures { result ≡ main_head references.now }
{
    let mut rest = references.walk();
    while let Some(reference) = rest.next() {
        if reference.name.as_str() == "main" {
            return reference.head;
        }
    }
    Hash::none()
}

impl Catalogue {
    /// The head of `main`; the hash that has no ancestor where there is no `main`.
    pub fn main_head(&self) -> Hash
        ensures { result ≡ main_head self.now.references }
    {
        main_head(self.references())
    }

    fn keys_at(&self, hash: &Hash) -> usize
        ensures { result ≡ length (entries self.now.commits hash.now) }
    {
        match self.maps().get(hash) {
            None => 0,
            Some(map) => map.len(),
        }
    }

    /// The entry of a key at a commit; none at a hash that is no commit's.
    pub fn entry_at(&self, hash: &Hash, key: &ContentKey) -> Option<Entry>
        ensures { result ≡ entry_of (entries self.now.commits hash.now) key.now }
    {
        match self.maps().get(hash) {
            None => None,
            Some(map) => map.get(key),
        }
    }

    /// How much it holds.
    pub fn counts(&self) -> Counts
        ensures place { result.place ≡ self.now.place }
        ensures references { result.references ≡ length self.now.references }
        ensures commits { result.commits ≡ length self.now.commits }
        ensures contents { result.contents ≡ length self.now.present }
        ensures keys { result.keys
            ≡ length (entries self.now.commits (main_head self.now.references)) }
        ensures head { result.head ≡ main_head self.now.references }
    {
        let head = self.main_head();
        Counts {
            place: self.place(),
            references: self.references().len() as u64,
            commits: self.commits().len() as u64,
            contents: self.contents().len() as u64,
            keys: self.keys_at(&head) as u64,
            head,
        }
    }
}
