//! Walks over maps.

ghost use Rattle.std.specs.Prelude.{◌≡◌, ◌∷◌, [], MatchOption, drop};
ghost use Rattle.std.specs.declared.cmp.Ordering.TheVariants.{Less};
ghost use Rattle.cat_names.specs.Fields.{key_cmp};
ghost use Rattle.cat_model.specs.declared.entry.Entry.{Entry};
ghost use Rattle.cat_ordered.specs.Maps.{from_key};
ghost use Rattle.cat_keymap.specs.Places.{entry_here, past};

use cat_model::entry::Entry;
use cat_names::key::ContentKey;
use cat_ordered::walk;
use std::marker::Model;

/// A walk over pairs of a map, keys ascending. It is seen as the list of the pairs that are still
/// to come, and takes no memory.
#[derive(Drop)]
pub struct Walk<'a> {
    pairs: Option<walk::Walk<'a, ContentKey, Entry>>,
}

impl<'a> Model for Walk<'a> {
    ghost use Rattle.cat_model.specs.Maps.{Map};
    ghost use Rattle.cat_keymap.specs.Shared.{pairs_of};

    ghost Value = { Map };

    ghost view = { λ w. pairs_of w.pairs };
}

impl<'a> Walk<'a> {
    /// The walk over no pairs.
    pub(crate) fn none() -> Walk<'a>
        ensures { result ≡ [] }
    {
        Walk { pairs: None }
    }

    /// The walk over these pairs.
    pub(crate) fn over(pairs: walk::Walk<'a, ContentKey, Entry>) -> Walk<'a>
        ensures { result ≡ pairs.entry }
    {
        Walk { pairs: Some(pairs) }
    }

    /// The next key and its entry; the walk stays where it is.
    pub fn peek(&self) -> Option<(&'a ContentKey, Entry)>
        ensures { MatchOption result (self.now ≡ [])
            (λ x. self.now ≡ (x.0.now, x.1) ∷ drop 1 self.now) }
    {
        match &self.pairs {
            None => None,
            Some(pairs) => {
                let pair = pairs.peek()?;
                Some((pair.key(), *pair.value()))
            }
        }
    }

    /// Goes past the next pair.
    fn skip(&mut self)
        ensures { self.new ≡ drop 1 self.old }
    {
        if let Some(pairs) = &mut self.pairs {
            let _ = pairs.next();
        }
    }

    /// The next key and its entry, past which the walk goes.
    pub fn next(&mut self) -> Option<(&'a ContentKey, Entry)>
        ensures { MatchOption result (self.old ≡ []) (λ x. self.old ≡ (x.0.now, x.1) ∷ self.new) }
    {
        let next = self.peek();
        self.skip();
        next
    }

    /// The next key, if it is below this one; the walk then goes past its pair.
    pub(crate) fn next_below(&mut self, key: &ContentKey) -> Option<&'a ContentKey>
        ensures { MatchOption result
            ((self.new ≡ self.old) × (from_key key_cmp self.old key.now ≡ self.old))
            (λ lower. (key_cmp lower.now key.now ≡ Less)
            × ((entry : Entry) × (self.old ≡ (lower.now, entry) ∷ self.new))) }
    {
        let (next, _) = self.peek()?;
        if !next.cmp(key).is_lt() {
            return None;
        }
        self.skip();
        Some(next)
    }

    /// The entry of a key, if its pair is the next one, past which the walk then goes.
    pub(crate) fn take(&mut self, key: &ContentKey) -> Option<Entry>
        ensures entry { result ≡ entry_here self.old key.now }
        ensures left { self.new ≡ past self.old key.now }
    {
        let (next, entry) = self.peek()?;
        if !next.cmp(key).is_eq() {
            return None;
        }
        self.skip();
        Some(entry)
    }
}
