//! Maps from content keys to entries.

ghost use Rattle.std.specs.Prelude.{IfOk, IsTrue, ◌≡◌, [], None, length};
ghost use Rattle.std.specs.Option.{option_map};
ghost use Rattle.cat_names.specs.Fields.{key_cmp};
ghost use Rattle.cat_names.specs.Paths.{parent_of};
ghost use Rattle.cat_model.specs.Changed.{changed_keys};
ghost use Rattle.cat_model.specs.Distinct.{are_distinct};
ghost use Rattle.cat_model.specs.Judge.{changes_of};
ghost use Rattle.cat_model.specs.Maps.{IsMap, entry_of, after_changes};
ghost use Rattle.cat_model.specs.Namespaces;
ghost use Rattle.cat_ordered.specs.Maps.{from_key};
ghost use Rattle.cat_keymap.specs.Among.{Covers};
ghost use Rattle.cat_keymap.specs.Ordered.{rise};
ghost use Rattle.cat_keymap.specs.Parents;
ghost use Rattle.cat_keymap.specs.Parts;

use crate::changing::changed_pairs;
use crate::listing::ListingPart;
use crate::walk::Walk;
use crate::{among, children, differing, listing, order};
use cat_codes::ascending::Ascending;
use cat_codes::fault::NoMemory;
use cat_codes::seq::Seq;
use cat_model::entry::{ContentKind, Entry};
use cat_model::filter::Filter;
use cat_model::op::Op;
use cat_names::key::ContentKey;
use cat_ordered::ordered_map::OrderedMap;
use cat_ordered::seek::Seek;
use std::alloc::{AllocError, Global};
use std::cmp::Ordering;
use std::marker::Model;

/// The entries of keys, keys ascending. Copies share all pairs, and a changed map shares with the
/// old one all but the blocks that its changes meet.
#[derive(Drop)]
pub struct KeyMap {
    pairs: Option<OrderedMap<ContentKey, Entry>>,
}

/// What a map has at the parent of a key.
#[derive(Clone, Copy, Debug, PartialEq, Eq)]
pub enum ParentState {
    /// The key has one element, so it needs no parent.
    Root,
    /// Nothing is there.
    Absent,
    /// A content that is no namespace is there.
    Other,
    /// A namespace is there.
    Namespace,
}

/// The parent of a key, sought without a copy.
#[derive(Drop)]
struct Parent<'a> {
    of: &'a ContentKey,
}

impl<'a> Seek<ContentKey> for Parent<'a> {
    ghost sought = { λ p. parent_of p.of.now };

    fn order(&self, key: &ContentKey) -> Ordering {
        key.elements().cmp(self.of.parent())
    }
}

impl Model for KeyMap {
    ghost use Rattle.cat_model.specs.Maps.{Map};
    ghost use Rattle.cat_keymap.specs.Shared.{pairs_of};

    ghost Value = { Map };

    ghost view = { λ m. pairs_of m.pairs };
}

impl Clone for KeyMap {
    ghost is_clone = { λ a b. b ≡ a };

    /// The same map, which shares all pairs. It takes memory for one list of owners, unless the map
    /// is empty: one owner for each 4,096 to 262,144 pairs.
    fn clone(&self) -> Result<KeyMap, AllocError> {
        match &self.pairs {
            None => Ok(KeyMap { pairs: None }),
            Some(pairs) => Ok(KeyMap {
                pairs: Some(pairs.clone()?),
            }),
        }
    }
}

impl KeyMap {
    /// The map without keys.
    pub fn empty() -> KeyMap
        ensures { result ≡ [] }
    {
        KeyMap { pairs: None }
    }

    /// What holds of each map: keys ascend, each once.
    pub fn known(&self)
        ensures { IsMap self.now }
    {
        if let Some(pairs) = &self.pairs {
            pairs.known();
        }
    }

    /// How many keys there are.
    pub fn len(&self) -> usize
        ensures { result ≡ length self.now }
    {
        match &self.pairs {
            None => 0,
            Some(pairs) => pairs.len(),
        }
    }

    /// A walk over all keys and their entries, keys ascending.
    pub fn walk(&self) -> Walk<'_>
        ensures { result ≡ self.now }
    {
        match &self.pairs {
            None => Walk::none(),
            Some(pairs) => Walk::over(pairs.walk()),
        }
    }

    /// A walk over the keys from one on, and their entries.
    pub fn walk_from(&self, key: &ContentKey) -> Walk<'_>
        ensures { result ≡ from_key key_cmp self.now key.now }
    {
        match &self.pairs {
            None => Walk::none(),
            Some(pairs) => Walk::over(pairs.walk_from(key)),
        }
    }

    /// The entry of a key, or of what stands for one.
    #[tactic(auto, using(crate::proofs::Agreeing::value_is))]
    fn find<Q: Seek<ContentKey>>(&self, key: &Q) -> Option<Entry>
        ensures { result ≡ entry_of self.now (Q.sought key.now) }
    {
        match &self.pairs {
            None => None,
            Some(pairs) => pairs.get_sought(key).copied(),
        }
    }

    /// The entry of a key.
    pub fn get(&self, key: &ContentKey) -> Option<Entry>
        ensures { result ≡ entry_of self.now key.now }
    {
        self.find(key)
    }

    /// The map after changes, each a key and its new entry, or none where the key goes.
    pub fn with_changes(
        &self,
        alloc: Global,
        changes: &Ascending<ContentKey, Option<Entry>>,
    ) -> Result<KeyMap, NoMemory>
        ensures { IfOk result (λ map. map ≡ after_changes changes.now self.now) }
    {
        changes.known();
        let pairs = changed_pairs(alloc, &self.pairs, changes.as_slice())?;
        Ok(KeyMap { pairs: Some(pairs) })
    }

    /// The map after the operations of a request on distinct keys, in any order.
    pub fn apply(&self, alloc: Global, ops: &[Op]) -> Result<KeyMap, NoMemory>
        requires { IsTrue (are_distinct ops.now) }
        ensures { IfOk result (λ map. map ≡ after_changes (changes_of ops.now) self.now) }
    {
        let changes = order::changes_of(alloc, ops)?;
        self.with_changes(alloc, &changes)
    }

    /// At most `limit` of the entries that the filter lets pass, those after a key.
    pub fn page(
        &self,
        alloc: Global,
        filter: &Filter,
        after: Option<&ContentKey>,
        limit: u32,
    ) -> Result<ListingPart, NoMemory>
        ensures { IfOk result
            (λ part. part
            ≡ Parts.part self.now filter.now (option_map (λ key. key.now) after.entry) limit) }
    {
        listing::part(alloc, self, filter, after, limit)
    }

    /// The keys whose entries differ in another map, ascending.
    pub fn changed(&self, alloc: Global, other: &KeyMap) -> Result<Seq<ContentKey>, NoMemory>
        ensures exact { IfOk result (λ keys. keys ≡ changed_keys self.now other.now) }
        ensures ascend { IfOk result (λ keys. IsTrue (rise None keys)) }
    {
        self.known();
        other.known();
        differing::changed(alloc, self.walk(), other.walk())
    }

    /// The keys whose entries differ in another map, ascending, where each of them is among these.
    /// They may stand in any order, and may come more than once. It costs two searches for each.
    pub fn changed_among(
        &self,
        alloc: Global,
        other: &KeyMap,
        among: &[ContentKey],
    ) -> Result<Seq<ContentKey>, NoMemory>
        requires { Covers among.now self.now other.now }
        ensures exact { IfOk result (λ keys. keys ≡ changed_keys self.now other.now) }
        ensures ascend { IfOk result (λ keys. IsTrue (rise None keys)) }
    {
        among::changed_among(alloc, self, other, among)
    }

    /// Whether a key of the map is a child of this one.
    pub fn has_child(&self, key: &ContentKey) -> bool
        ensures { result ≡ Namespaces.has_child self.now key.now }
    {
        self.known();
        children::has_child(self, key)
    }

    /// What the map has at the parent of a key.
    #[tactic(auto, using(crate::proofs::Within::parent_is))]
    pub fn parent_state(&self, key: &ContentKey) -> ParentState
        ensures { result ≡ Parents.parent_state self.now key.now }
    {
        if key.elements().len() < 2 {
            return ParentState::Root;
        }
        match self.find(&Parent { of: key }) {
            None => ParentState::Absent,
            Some(entry) => state_of(entry.kind),
        }
    }
}

fn state_of(kind: ContentKind) -> ParentState
    ensures { result ≡ Parents.kind_state kind }
{
    if kind.number() == ContentKind::Namespace.number() {
        ParentState::Namespace
    } else {
        ParentState::Other
    }
}
