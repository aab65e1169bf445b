//! A key and its value.

ghost use Rattle.std.specs.Prelude.{◌≡◌, IfOk};

use std::alloc::{AllocError, Global};
use std::marker::Model;
use std::sync::Arc;

/// A key and its value, which copies share: one count of owners for both.
#[derive(Drop)]
pub struct Pair<K, V> {
    both: Arc<(K, V)>,
}

impl<K, V> Model for Pair<K, V> {
    ghost use Rattle.std.specs.Arc.{arc_value};

    ghost Value = { K × V };

    ghost view = { λ p. arc_value p.both };
}

impl<K, V> Pair<K, V> {
    /// The key.
    pub fn key(&self) -> &K
        ensures { result.now ≡ self.now.0 }
    {
        let both = &*self.both;
        &both.0
    }

    /// The value.
    pub fn value(&self) -> &V
        ensures { result.now ≡ self.now.1 }
    {
        let both = &*self.both;
        &both.1
    }
}

impl<K: Drop, V: Drop> Pair<K, V> {
    /// The pair of a key and a value.
    pub(crate) fn new(alloc: Global, key: K, value: V) -> Result<Pair<K, V>, AllocError>
        ensures { IfOk result (λ pair. pair ≡ (key, value)) }
    {
        Ok(Pair {
            both: Arc::new(alloc, (key, value))?,
        })
    }

    /// The same pair, with one owner more; refused only where the count of owners is full.
    pub(crate) fn share(&self) -> Result<Pair<K, V>, AllocError>
        ensures { IfOk result (λ pair. pair ≡ self.now) }
    {
        Ok(Pair {
            both: Arc::try_clone(&self.both)?,
        })
    }
}
