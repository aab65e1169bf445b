//! A keeper whose bytes stay while nothing is added, and whose format stays.

ghost use Rattle.std.specs.Prelude.{◌≡◌};
ghost use Rattle.cat_cli.specs.Unadded.{IsStill};

use cat_codes::bytes::Bytes;
use cat_codes::fault::NoMemory;
use cat_keeper::{KeepFault, Keeper};
use std::alloc::Global;
use std::marker::{Brand, Model, PhantomData, Send};

/// How a keeper stood at a moment. The proof of a call picks it.
pub(crate) trait Stood {
    ghost use Rattle.std.specs.Prelude.{ℕ, List};

    // that moment
    ghost since: { ℕ };

    // how many payloads there were
    ghost count: { ℕ };

    // the bytes that a crash at some moment from an earlier one on might have left
    ghost past: { ℕ → List ℕ → Type 0 };

    // and those that one left then
    ghost began: { List ℕ → Type 0 };

    // what holds of the format
    ghost shape: { ℕ → Type 0 };
}

impl Stood for Brand {
    ghost use Rattle.cat_io.specs.Crashes.{never_known, none_known};
    ghost use Rattle.cat_cli.specs.Unadded.{any_shape};

    ghost since = { 0 };

    ghost count = { 0 };

    ghost past = { never_known };

    ghost began = { none_known };

    ghost shape = { any_shape };
}

/// A keeper all of whose calls go through here. While nothing is added a crash leaves the bytes
/// that one left when it was given here, and no others; and its format stays.
#[derive(Drop)]
pub(crate) struct Still<B: Stood + Send, K: Keeper> {
    keeper: K,
    stood: PhantomData<B>,
}

impl<B: Stood + Send, K: Keeper> Model for Still<B, K> {
    ghost use Rattle.cat_cli.specs.Unadded.{IsStill};

    ghost Value = { K };

    ghost view = { λ s. s.keeper };

    ghost invariant = { λ s. IsStill K.told K.in_flight K.moment K.bytes_left K.bytes_since B.since
        B.count B.past B.began s.keeper × B.shape (K.form s.keeper) };
}

impl<B: Stood + Send, K: Keeper> Still<B, K> {
    /// Holds a keeper from its first call on.
    pub(crate) fn new(keeper: K) -> Still<B, K>
        requires still { IsStill K.told K.in_flight K.moment K.bytes_left K.bytes_since B.since
            B.count B.past B.began keeper }
        requires shape { B.shape (K.form keeper) }
        ensures { result ≡ keeper }
    {
        Still {
            keeper,
            stood: PhantomData,
        }
    }

    /// The keeper.
    pub(crate) fn into_inner(self) -> K
        ensures keeper { result ≡ self }
        ensures still { IsStill K.told K.in_flight K.moment K.bytes_left K.bytes_since B.since
            B.count B.past B.began result }
        ensures shape { B.shape (K.form result) }
    {
        let Still { keeper, stood: _ } = self;
        keeper
    }
}

impl<B: Stood + Send, K: Keeper> Keeper for Still<B, K> {
    ghost told = { λ k. K.told k };

    ghost kept = { λ k. K.kept k };

    ghost start = { λ k. K.start k };

    ghost form = { λ k. K.form k };

    ghost spare = { λ k. K.spare k };

    ghost down = { λ k. K.down k };

    ghost in_flight = { λ k. K.in_flight k };

    ghost faults = { λ k. K.faults k };

    ghost may_leave = { λ k c. K.may_leave k c };

    ghost moment = { λ k. K.moment k };

    ghost left_since = { λ k t c. K.left_since k t c };

    ghost stands_for = { λ b. K.stands_for b };

    ghost bytes_left = { λ k b. K.bytes_left k b };

    ghost bytes_since = { λ k t b. K.bytes_since k t b };

    ghost counts_now = { λ k t c le now. K.counts_now k t c le now };

    ghost only_now = { λ k c left. K.only_now k c left };

    ghost bytes_count_now = { λ k t b le now. K.bytes_count_now k t b le now };

    ghost safe = { λ k ps c up told now. K.safe k ps c up told now };

    ghost kept_as_image = { λ k ps up told. K.kept_as_image k ps up told };

    ghost unsafe_leaves = { λ k ps p c told flies now. K.unsafe_leaves k ps p c told flies now };

    ghost waits = { λ k up. K.waits k up };

    ghost flies = { λ k c down. K.flies k c down };

    ghost counted = { λ k ps told. K.counted k ps told };

    ghost begins = { λ k ps told. K.begins k ps told };

    ghost formed = { λ k. K.formed k };

    fn count(&self) -> u32 {
        self.keeper.count()
    }

    fn total(&self) -> u64 {
        self.keeper.total()
    }

    fn first(&self) -> u32 {
        self.keeper.first()
    }

    fn format(&self) -> u32 {
        self.keeper.format()
    }

    fn entry(&mut self, alloc: Global, i: u32) -> Result<Bytes, KeepFault> {
        self.keeper.entry(alloc, i)
    }

    fn base(&mut self, alloc: Global) -> Result<Option<Bytes>, KeepFault> {
        self.keeper.base(alloc)
    }

    fn reserve(&mut self, bytes: usize) -> Result<(), NoMemory> {
        self.keeper.reserve(bytes)
    }

    fn append(&mut self, bytes: &[u8]) -> Result<(), KeepFault> {
        self.keeper.append(bytes)
    }

    fn rebase(&mut self, place: u32, bytes: &[u8]) -> Result<(), KeepFault> {
        self.keeper.rebase(place, bytes)
    }

    fn fault_count(&self) -> u64 {
        self.keeper.fault_count()
    }
}
