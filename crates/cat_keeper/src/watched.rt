//! A keeper that is watched over many calls.

ghost use Rattle.std.specs.Prelude.{◌≡◌};
ghost use Rattle.cat_keeper.specs.Watching.{IsWatched};

use crate::fault::KeepFault;
use crate::keeper::Keeper;
use cat_codes::bytes::Bytes;
use cat_codes::fault::NoMemory;
use std::alloc::Global;
use std::marker::{Brand, Model, PhantomData, Send};

/// Since when a keeper is watched. The proof of a call picks it.
pub trait Since {
    ghost use Rattle.std.specs.Prelude.{ℕ, List};

    // that moment
    ghost since: { ℕ };

    // the payloads that there were, as far as they are known
    ghost had: { List (List ℕ) };

    // the bytes that a crash might have left from then on, before the first call
    ghost before: { List ℕ → Type 0 };
}

impl Since for Brand {
    ghost use Rattle.std.specs.Prelude.{[]};
    ghost use Rattle.cat_io.specs.Crashes.{none_known};

    ghost since = { 0 };

    ghost had = { [] };

    ghost before = { none_known };
}

/// A keeper all of whose calls go through here. Its payloads go on from those that there were at the
/// moment since which it is watched, and since then a crash leaves a front of them that has those, or
/// what it might have left before the first call.
#[derive(Drop)]
pub struct Watched<B: Since + Send, K: Keeper> {
    keeper: K,
    since: PhantomData<B>,
}

impl<B: Since + Send, K: Keeper> Model for Watched<B, K> {
    ghost use Rattle.cat_keeper.specs.Watching.{IsWatched};

    ghost Value = { K };

    ghost view = { λ w. w.keeper };

    ghost invariant = { λ w. IsWatched K.told K.in_flight K.moment K.stands_for K.bytes_since
        B.since B.had B.before w.keeper };
}

impl<B: Since + Send, K: Keeper> Watched<B, K> {
    /// Watches a keeper from its first call on.
    pub fn new(keeper: K) -> Watched<B, K>
        requires { IsWatched K.told K.in_flight K.moment K.stands_for K.bytes_since B.since
            B.had B.before keeper }
        ensures { result ≡ keeper }
    {
        Watched {
            keeper,
            since: PhantomData,
        }
    }

    /// The keeper.
    pub fn into_inner(self) -> K
        ensures keeper { result ≡ self }
        ensures watched { IsWatched K.told K.in_flight K.moment K.stands_for K.bytes_since B.since
            B.had B.before self }
    {
        let Watched { keeper, since: _ } = self;
        keeper
    }
}

impl<B: Since + Send, K: Keeper> Keeper for Watched<B, K> {
    ghost told = { λ k. K.told k };

    ghost kept = { λ k. K.kept k };

    ghost start = { λ k. K.start k };

    ghost form = { λ k. K.form k };

    ghost spare = { λ k. K.spare k };

    ghost down = { λ k. K.down k };

    ghost in_flight = { λ k. K.in_flight k };

    ghost faults = { λ k. K.faults k };

    ghost may_leave = { λ k c. K.may_leave k c };

    ghost moment = { λ k. K.moment k };

    ghost left_since = { λ k t c. K.left_since k t c };

    ghost stands_for = { λ b. K.stands_for b };

    ghost bytes_left = { λ k b. K.bytes_left k b };

    ghost bytes_since = { λ k t b. K.bytes_since k t b };

    ghost counts_now = { λ k t c le now. K.counts_now k t c le now };

    ghost only_now = { λ k c left. K.only_now k c left };

    ghost bytes_count_now = { λ k t b le now. K.bytes_count_now k t b le now };

    ghost safe = { λ k ps c up told now. K.safe k ps c up told now };

    ghost kept_as_image = { λ k ps up told. K.kept_as_image k ps up told };

    ghost unsafe_leaves = { λ k ps p c told flies now. K.unsafe_leaves k ps p c told flies now };

    ghost waits = { λ k up. K.waits k up };

    ghost flies = { λ k c down. K.flies k c down };

    ghost counted = { λ k ps told. K.counted k ps told };

    ghost begins = { λ k ps told. K.begins k ps told };

    ghost formed = { λ k. K.formed k };

    fn count(&self) -> u32 {
        self.keeper.count()
    }

    fn total(&self) -> u64 {
        self.keeper.total()
    }

    fn first(&self) -> u32 {
        self.keeper.first()
    }

    fn format(&self) -> u32 {
        self.keeper.format()
    }

    fn entry(&mut self, alloc: Global, i: u32) -> Result<Bytes, KeepFault> {
        self.keeper.entry(alloc, i)
    }

    fn base(&mut self, alloc: Global) -> Result<Option<Bytes>, KeepFault> {
        self.keeper.base(alloc)
    }

    fn reserve(&mut self, bytes: usize) -> Result<(), NoMemory> {
        self.keeper.reserve(bytes)
    }

    fn append(&mut self, bytes: &[u8]) -> Result<(), KeepFault> {
        self.keeper.append(bytes)
    }

    fn rebase(&mut self, place: u32, bytes: &[u8]) -> Result<(), KeepFault> {
        self.keeper.rebase(place, bytes)
    }

    fn fault_count(&self) -> u64 {
        self.keeper.fault_count()
    }
}
