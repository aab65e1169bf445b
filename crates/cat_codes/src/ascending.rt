//! Pairs with ascending keys.

ghost use Rattle.std.specs.Prelude.{◌≡◌, ◌<◌, ◌^◌, ◌↔◌, [], ◌∷◌, ◌++◌, false, Err, IsTrue, MatchOption, None, OnErr, OnOk, length, option_map};
ghost use Rattle.std.specs.List.{AllByRecursion, AllZip, flat_map};
ghost use Rattle.cat_codes.specs.Read.{Reads};
ghost use Rattle.cat_codes.specs.Code.{ascending, ascends, follows, last_key, pairs_at};
ghost use Rattle.cat_codes.specs.ListLaws.{ascending_is};

use crate::fault::{FieldFault, NoMemory, PushFault};
use crate::field::Field;
use crate::reader::Reader;
use crate::seq::Seq;
use crate::writer::Writer;
use std::alloc::{AllocError, Global};
use std::marker::Model;

/// Pairs whose keys ascend and are distinct, at most 4,294,967,295 of them.
#[derive(PartialEq, Drop)]
pub struct Ascending<K: Ord, V> {
    pairs: Seq<(K, V)>,
}

impl<K: Ord, V> Model for Ascending<K, V> {
    ghost use Rattle.std.specs.Prelude.{List, None, IsTrue};
    ghost use Rattle.cat_codes.specs.Code.{ascends};

    ghost Value = { List (K × V) };

    ghost view = { λ a. a.pairs };

    ghost invariant = { λ a. IsTrue (ascends K.cmp None a.pairs) };

    ghost inverse = { λ xs. record { pairs = xs } };
}

impl<K: Ord, V> Ascending<K, V> {
    /// No pairs.
    pub fn new(alloc: Global) -> Ascending<K, V>
        ensures { result ≡ [] }
    {
        Ascending {
            pairs: Seq::new(alloc),
        }
    }

    /// What holds of each such list.
    pub fn known(&self)
        ensures short { length self.now < 2 ^ 32 }
        ensures ascends { IsTrue (ascends K.cmp None self.now) }
    {
        self.pairs.known();
    }

    /// The pairs as a slice.
    pub fn as_slice(&self) -> &[(K, V)]
        ensures { result.now ≡ self.now }
    {
        self.pairs.as_slice()
    }

    /// How many pairs there are.
    pub fn len(&self) -> usize
        ensures { result ≡ length self.now }
    {
        self.pairs.len()
    }
}

impl<K: Ord + Drop, V: Drop> Ascending<K, V> {
    /// The list of the pairs, where their keys ascend.
    pub fn from_seq(pairs: Seq<(K, V)>) -> Option<Ascending<K, V>>
        ensures { MatchOption result (ascends K.cmp None pairs ≡ false) (λ a. a ≡ pairs) }
    {
        if !keys_ascend(pairs.as_slice()) {
            return None;
        }
        Some(Ascending { pairs })
    }

    /// Adds a pair at the end. A full list is answered as want of memory.
    pub fn push(&mut self, key: K, value: V) -> Result<(), PushFault>
        ensures ok { OnOk result (self.new ≡ self.old ++ (key, value) ∷ []) }
        ensures err { OnErr result (self.new ≡ self.old) }
        ensures order { (result ≡ Err PushFault.NotAfter)
            ↔ (follows K.cmp (last_key self.old) key ≡ false) }
    {
        if !comes_next(self.pairs.as_slice(), &key) {
            return Err(PushFault::NotAfter);
        }
        self.pairs.push((key, value))?;
        Ok(())
    }
}

impl<K: Ord + Clone, V: Clone> Clone for Ascending<K, V> {
    ghost is_clone = { AllZip (λ x y. K.is_clone x.0 y.0 × V.is_clone x.1 y.1) };

    // A clone need not be equal to its source, so one whose keys don't ascend is refused.
    fn clone(&self) -> Result<Ascending<K, V>, AllocError> {
        let pairs = self.pairs.clone()?;
        if !keys_ascend(pairs.as_slice()) {
            return Err(AllocError);
        }
        Ok(Ascending { pairs })
    }
}

/// Whether the key comes after the last one.
pub(crate) fn comes_after<K: Ord>(last: Option<&K>, key: &K) -> bool
    ensures { result ≡ follows K.cmp (option_map (λ k. k.now) last.entry) key.now }
{
    match last {
        None => true,
        Some(last) => last.cmp(key).is_lt(),
    }
}

/// Whether each key comes after the one before.
fn keys_ascend<K: Ord, V>(pairs: &[(K, V)]) -> bool
    ensures { result ≡ ascends K.cmp None pairs.now }
{
    let mut last = None;
    for (key, _) in pairs {
        if !comes_after(last, key) {
            return false;
        }
        last = Some(key);
    }
    true
}

/// Whether the key comes after those of the pairs.
fn comes_next<K: Ord, V>(pairs: &[(K, V)], key: &K) -> bool
    ensures { result ≡ follows K.cmp (last_key pairs.now) key.now }
{
    match pairs {
        [] => true,
        [.., (last, _)] => last.cmp(key).is_lt(),
    }
}

/// So many pairs, each key above the one before.
fn pairs<K: Field + Ord, V: Field>(
    from: &mut Reader<'_>,
    alloc: Global,
    count: u32,
) -> Result<Ascending<K, V>, FieldFault>
    ensures { Reads result from.new (pairs_at K.cmp K.code V.code None count from.old) }
{
    let mut pairs = Seq::new(alloc);
    for _ in 0..count {
        let key = K::read(from, alloc)?;
        if !comes_next(pairs.as_slice(), &key) {
            return Err(FieldFault::Range);
        }
        let value = V::read(from, alloc)?;
        pairs.push((key, value))?;
    }
    Ok(Ascending { pairs })
}

/// Writes the pairs, one after the other.
fn write_pairs<K: Field, V: Field>(out: &mut Writer, pairs: &[(K, V)]) -> Result<(), NoMemory>
    ensures spelled { OnOk result
        (out.new ≡ out.old ++ flat_map (λ x. (K.code).spell x.0 ++ (V.code).spell x.1) pairs.now) }
    ensures fits { OnOk result
        (AllByRecursion (λ x. (K.code).Fits x.0 × (V.code).Fits x.1) pairs.now) }
{
    for (key, value) in pairs {
        key.write(out)?;
        value.write(out)?;
    }
    Ok(())
}

impl<K: Field + Ord, V: Field> Field for Ascending<K, V> {
    ghost code = { ascending K.cmp K.code V.code };

    ghost lawful = { ascending_is K.cmp K.code V.code K.lawful V.lawful };

    #[tactic(auto, unfolding(crate::specs::Code::ascending))]
    fn read(from: &mut Reader<'_>, alloc: Global) -> Result<Ascending<K, V>, FieldFault> {
        let count = from.u32()?;
        pairs(from, alloc, count)
    }

    #[tactic(auto, unfolding(crate::specs::Code::ascending))]
    fn write(&self, out: &mut Writer) -> Result<(), NoMemory> {
        self.known();
        let pairs = self.as_slice();
        out.u32(pairs.len() as u32)?;
        write_pairs(out, pairs)?;
        Ok(())
    }
}
