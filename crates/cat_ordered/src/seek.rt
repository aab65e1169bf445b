//! What is sought among keys.

ghost use Rattle.std.specs.Prelude.{◌≡◌};

use std::cmp::Ordering;

/// What is sought in place of a key, as a part of another one: it stands for a key, and is compared
/// with keys as that one would be.
pub trait Seek<K: Ord> {
    /// The key that it stands for.
    ghost sought: { Self → K };

    /// The order of a key and the one that is sought.
    fn order(&self, key: &K) -> Ordering
        ensures { result ≡ K.cmp key.now (sought self.now) };
}

impl<K: Ord> Seek<K> for K {
    ghost sought = { λ key. key };

    fn order(&self, key: &K) -> Ordering {
        key.cmp(self)
    }
}
