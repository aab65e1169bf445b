//! Changes of a map.

ghost use Rattle.std.specs.Prelude.{◌≡◌, IfOk, None, Some};
ghost use Rattle.cat_ordered.specs.Maps.{kept};

use crate::pair::Pair;
use std::alloc::{AllocError, Global};
use std::marker::Model;

/// The pair that stands for its key from then on, or the key that goes.
#[derive(Drop)]
pub(crate) enum Left<K, V> {
    Put(Pair<K, V>),
    Gone(K),
}

/// A key and its new value, or none where the key goes.
#[derive(Drop)]
pub struct Change<K, V> {
    left: Left<K, V>,
}

impl<K, V> Model for Change<K, V> {
    ghost use Rattle.std.specs.Prelude.{Option};
    ghost use Rattle.cat_ordered.specs.Changes.{said};

    ghost Value = { K × Option V };

    ghost view = { λ c. said c.left };
}

impl<K: Drop, V: Drop> Change<K, V> {
    /// The change that gives a key this value.
    pub fn put(alloc: Global, key: K, value: V) -> Result<Change<K, V>, AllocError>
        ensures { IfOk result (λ change. change ≡ (key, Some value)) }
    {
        let pair = Pair::new(alloc, key, value)?;
        Ok(Change {
            left: Left::Put(pair),
        })
    }

    /// The change that takes a key away, if it is there. It takes no memory.
    pub fn remove(alloc: Global, key: K) -> Result<Change<K, V>, AllocError>
        ensures { IfOk result (λ change. change ≡ (key, None)) }
    {
        let _ = alloc;
        Ok(Change {
            left: Left::Gone(key),
        })
    }

    /// The pair that the change leaves, with one owner more.
    pub(crate) fn pair(&self) -> Result<Option<Pair<K, V>>, AllocError>
        ensures { IfOk result (λ pair. pair ≡ kept self.now) }
    {
        match &self.left {
            Left::Gone(_) => Ok(None),
            Left::Put(pair) => {
                let pair = pair.share()?;
                Ok(Some(pair))
            }
        }
    }
}

impl<K, V> Change<K, V> {
    /// The key.
    pub fn key(&self) -> &K
        ensures { result.now ≡ self.now.0 }
    {
        match &self.left {
            Left::Put(pair) => pair.key(),
            Left::Gone(key) => key,
        }
    }
}
