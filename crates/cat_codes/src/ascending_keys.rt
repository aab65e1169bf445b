//! Ascending keys.

ghost use Rattle.std.specs.Prelude.{◌≡◌, ◌<◌, ◌^◌, ◌↔◌, [], ◌∷◌, ◌++◌, false, Err, IsTrue, None, OnErr, OnOk, length};
ghost use Rattle.std.specs.List.{AllZip};
ghost use Rattle.cat_codes.specs.Read.{Reads};
ghost use Rattle.cat_codes.specs.Code.{ascending_keys, follows, keys_ascend, keys_at, last_of};
ghost use Rattle.cat_codes.specs.ListLaws.{ascending_keys_is};

use crate::ascending::comes_after;
use crate::fault::{FieldFault, NoMemory, PushFault};
use crate::field::{Field, write_items};
use crate::reader::Reader;
use crate::seq::Seq;
use crate::writer::Writer;
use std::alloc::{AllocError, Global};
use std::marker::Model;

/// Keys that ascend and are distinct, at most 4,294,967,295 of them.
#[derive(Drop)]
pub struct AscendingKeys<K: Ord> {
    keys: Seq<K>,
}

impl<K: Ord> Model for AscendingKeys<K> {
    ghost use Rattle.std.specs.Prelude.{List, None, IsTrue};
    ghost use Rattle.cat_codes.specs.Code.{keys_ascend};

    ghost Value = { List K };

    ghost view = { λ a. a.keys };

    ghost invariant = { λ a. IsTrue (keys_ascend K.cmp None a.keys) };

    ghost inverse = { λ xs. record { keys = xs } };
}

impl<K: Ord> AscendingKeys<K> {
    /// No keys.
    pub fn new(alloc: Global) -> AscendingKeys<K>
        ensures { result ≡ [] }
    {
        AscendingKeys {
            keys: Seq::new(alloc),
        }
    }

    /// What holds of each such list.
    pub fn known(&self)
        ensures short { length self.now < 2 ^ 32 }
        ensures ascends { IsTrue (keys_ascend K.cmp None self.now) }
    {
        self.keys.known();
    }

    /// The keys as a slice.
    pub fn as_slice(&self) -> &[K]
        ensures { result.now ≡ self.now }
    {
        self.keys.as_slice()
    }

    /// How many keys there are.
    pub fn len(&self) -> usize
        ensures { result ≡ length self.now }
    {
        self.keys.len()
    }
}

impl<K: Ord + Drop> AscendingKeys<K> {
    /// Adds a key at the end. A full list is answered as want of memory.
    pub fn push(&mut self, key: K) -> Result<(), PushFault>
        ensures ok { OnOk result (self.new ≡ self.old ++ key ∷ []) }
        ensures err { OnErr result (self.new ≡ self.old) }
        ensures order { (result ≡ Err PushFault.NotAfter)
            ↔ (follows K.cmp (last_of self.old) key ≡ false) }
    {
        if !comes_next(self.keys.as_slice(), &key) {
            return Err(PushFault::NotAfter);
        }
        self.keys.push(key)?;
        Ok(())
    }
}

impl<K: Ord + Clone> Clone for AscendingKeys<K> {
    ghost is_clone = { AllZip K.is_clone };

    // A clone need not be equal to its source, so one whose keys don't ascend is refused.
    fn clone(&self) -> Result<AscendingKeys<K>, AllocError> {
        let keys = self.keys.clone()?;
        if !ascend(keys.as_slice()) {
            return Err(AllocError);
        }
        Ok(AscendingKeys { keys })
    }
}

/// Whether each key comes after the one before.
fn ascend<K: Ord>(keys: &[K]) -> bool
    ensures { result ≡ keys_ascend K.cmp None keys.now }
{
    let mut last = None;
    for key in keys {
        if !comes_after(last, key) {
            return false;
        }
        last = Some(key);
    }
    true
}

/// Whether the key comes after the others.
fn comes_next<K: Ord>(keys: &[K], key: &K) -> bool
    ensures { result ≡ follows K.cmp (last_of keys.now) key.now }
{
    match keys {
        [] => true,
        [.., last] => last.cmp(key).is_lt(),
    }
}

/// So many keys, each above the one before.
fn keys<K: Field + Ord>(
    from: &mut Reader<'_>,
    alloc: Global,
    count: u32,
) -> Result<AscendingKeys<K>, FieldFault>
    ensures { Reads result from.new (keys_at K.cmp K.code None count from.old) }
{
    let mut keys = Seq::new(alloc);
    for _ in 0..count {
        let key = K::read(from, alloc)?;
        if !comes_next(keys.as_slice(), &key) {
            return Err(FieldFault::Range);
        }
        keys.push(key)?;
    }
    Ok(AscendingKeys { keys })
}

impl<K: Field + Ord> Field for AscendingKeys<K> {
    ghost code = { ascending_keys K.cmp K.code };

    ghost lawful = { ascending_keys_is K.cmp K.code K.lawful };

    #[tactic(auto, unfolding(crate::specs::Code::ascending_keys))]
    fn read(from: &mut Reader<'_>, alloc: Global) -> Result<AscendingKeys<K>, FieldFault> {
        let count = from.u32()?;
        keys(from, alloc, count)
    }

    #[tactic(auto, unfolding(crate::specs::Code::ascending_keys))]
    fn write(&self, out: &mut Writer) -> Result<(), NoMemory> {
        self.known();
        let keys = self.as_slice();
        out.u32(keys.len() as u32)?;
        write_items(out, keys)?;
        Ok(())
    }
}
