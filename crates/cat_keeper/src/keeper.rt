//! The trait of what keeps payloads.
ghost use Rattle.std.specs.Prelude.{ℕ, List, [], ◌∷◌, ◌++◌, Option, None, Some, ◌≡◌, ◌≤◌, ◌<◌, ◌+◌, ◌^◌, ◌↔◌, true, length, get_or, IsErrOf, IsTrue, IfOk, IfSome, OnOk, OnErr};
ghost use Rattle.cat_io.specs.Crashes.{Told};
ghost use Rattle.cat_frames.specs.CheckpointLaws.{is_whole_checkpoint};
ghost use Rattle.cat_frames.specs.Payload.{has_reading};
ghost use Rattle.cat_keeper.specs.Bases.{base_of, base_place, entries_of, first_of};
ghost use Rattle.cat_keeper.specs.Keeping.{HasKeepCause, WithOrWithout, is_format};
ghost use Rattle.cat_io.specs.Crashes.{LeavesOnly};
ghost use Rattle.cat_keeper.specs.Moments.{Within};

use crate::fault::KeepFault;
use cat_codes::bytes::Bytes;
use cat_codes::fault::NoMemory;
use std::alloc::Global;
use std::marker::Send;

/// Payloads of log entries in their order, each kept before it is acknowledged, and among them
/// bases: states that the log goes on from. The entries behind the last base are given, and the
/// base itself; those before it aren't any more. After an append or a rebase that fails the keeper
/// is down: it adds nothing more, and still gives what it has.
pub trait Keeper: Send {
    // the payloads, bases among them, where they are told
    ghost told: { Self → Option (List (List ℕ)) };

    // how many entries stand behind the last base
    ghost kept: { Self → ℕ };

    // the place of that base, and 0 where there is none
    ghost start: { Self → ℕ };

    // the format in which they are kept: only in format 2 there may be bases
    ghost form: { Self → ℕ };

    // the length of a payload for which there is room
    ghost spare: { Self → ℕ };

    // the count of faults at which an append or a rebase failed, if one did
    ghost down: { Self → Option ℕ };

    // the payload of that call
    ghost in_flight: { Self → Option (List ℕ) };

    // how many calls failed
    ghost faults: { Self → ℕ };

    // what a crash may leave now, as far as it is known; None is what doesn't open
    ghost may_leave: { Self → Option (List (List ℕ)) → Type 0 };

    // the moment, a number that doesn't fall
    ghost moment: { Self → ℕ };

    // what a crash at some moment from that one on, within a call or between two, might have left
    ghost left_since: { Self → ℕ → Option (List (List ℕ)) → Type 0 };

    // what bytes recover to, where the payloads are kept in bytes
    ghost stands_for: { List ℕ → Option (List (List ℕ)) };

    // the bytes that a crash may leave now
    ghost bytes_left: { Self → List ℕ → Type 0 };

    // and those that one at some moment from that one on might have left
    ghost bytes_since: { Self → ℕ → List ℕ → Type 0 };

    /// How many entries there are behind the last base.
    fn count(&self) -> u32
        ensures { result ≡ kept self.now };

    /// How many payloads there are, bases and what stands before them among these.
    fn total(&self) -> u64
        ensures { IfSome (told self.now) (λ ps. result ≡ length ps) };

    /// The place of the last base, and 0 where there is none.
    fn first(&self) -> u32
        ensures { result ≡ start self.now };

    /// The format: 1 or 2.
    fn format(&self) -> u32
        ensures { result ≡ form self.now };

    /// The payload of the entry number `i` behind the last base, from 0.
    fn entry(&mut self, alloc: Global, i: u32) -> Result<Bytes, KeepFault>
        requires { i < kept self.old }
        ensures value { IfOk result
            (λ bytes. IfSome (told self.old) (λ ps. bytes ≡ get_or (entries_of ps) i [])) }
        ensures never_down { (c : ℕ) → IsErrOf result (KeepFault.Down c) → ⊥ }
        ensures told { Told (told self.old) (told self.new) (λ old new. new ≡ old) }
        ensures kept { kept self.new ≡ kept self.old }
        ensures first { start self.new ≡ start self.old }
        ensures format { form self.new ≡ form self.old }
        ensures spare { spare self.new ≡ spare self.old }
        ensures down { down self.new ≡ down self.old }
        ensures in_flight { in_flight self.new ≡ in_flight self.old }
        ensures crash { Within (may_leave self.old) (may_leave self.new) }
        ensures time { LeavesOnly moment left_since self.old self.new (may_leave self.old) }
        ensures images { LeavesOnly moment bytes_since self.old self.new (bytes_left self.old) }
        ensures cause { HasKeepCause (faults self.old) (faults self.new) result };

    /// The last base, if there is one.
    fn base(&mut self, alloc: Global) -> Result<Option<Bytes>, KeepFault>
        ensures value { IfOk result
            (λ base. IfSome (told self.old) (λ ps. base ≡ base_of ps)) }
        ensures never_down { (c : ℕ) → IsErrOf result (KeepFault.Down c) → ⊥ }
        ensures told { Told (told self.old) (told self.new) (λ old new. new ≡ old) }
        ensures kept { kept self.new ≡ kept self.old }
        ensures first { start self.new ≡ start self.old }
        ensures format { form self.new ≡ form self.old }
        ensures spare { spare self.new ≡ spare self.old }
        ensures down { down self.new ≡ down self.old }
        ensures in_flight { in_flight self.new ≡ in_flight self.old }
        ensures crash { Within (may_leave self.old) (may_leave self.new) }
        ensures time { LeavesOnly moment left_since self.old self.new (may_leave self.old) }
        ensures images { LeavesOnly moment bytes_since self.old self.new (bytes_left self.old) }
        ensures cause { HasKeepCause (faults self.old) (faults self.new) result };

    /// Makes room for a payload of so many bytes.
    fn reserve(&mut self, bytes: usize) -> Result<(), NoMemory>
        ensures room { OnOk result (bytes ≤ spare self.new) }
        ensures spare { spare self.old ≤ spare self.new }
        ensures told { told self.new ≡ told self.old }
        ensures kept { kept self.new ≡ kept self.old }
        ensures first { start self.new ≡ start self.old }
        ensures format { form self.new ≡ form self.old }
        ensures down { down self.new ≡ down self.old }
        ensures in_flight { in_flight self.new ≡ in_flight self.old }
        ensures faults { faults self.new ≡ faults self.old }
        ensures crash { Within (may_leave self.old) (may_leave self.new) }
        ensures time { LeavesOnly moment left_since self.old self.new (may_leave self.old) }
        ensures images { LeavesOnly moment bytes_since self.old self.new (bytes_left self.old) };

    /// Adds a payload, with no memory. `Ok` acknowledges it: each crash from then on leaves it.
    fn append(&mut self, bytes: &[u8]) -> Result<(), KeepFault>
        requires room { length bytes.now ≤ spare self.old }
        requires reading { has_reading bytes.now ≡ true }
        requires short { length bytes.now < 2 ^ 32 }
        requires few { kept self.old < 4294967295 }
        ensures added { OnOk result
            (Told (told self.old) (told self.new) (λ old new. new ≡ old ++ bytes.now ∷ [])) }
        ensures kept { OnOk result (kept self.new ≡ kept self.old + 1) }
        ensures first { start self.new ≡ start self.old }
        ensures format { form self.new ≡ form self.old }
        ensures up { OnOk result (down self.new ≡ None) }
        ensures not_added { OnErr result
            (Told (told self.old) (told self.new) (λ old new. new ≡ old)) }
        ensures not_kept { OnErr result (kept self.new ≡ kept self.old) }
        ensures failed { IsErrOf result KeepFault.Fault
            → (down self.old ≡ None)
            × (down self.new ≡ Some (faults self.new))
            × (in_flight self.new ≡ Some bytes.now) }
        ensures is_down { (c : ℕ) → IsErrOf result (KeepFault.Down c) ↔ (down self.old ≡ Some c) }
        ensures stays_down { (c : ℕ) → down self.old ≡ Some c
            → (down self.new ≡ Some c) × (in_flight self.new ≡ in_flight self.old) }
        ensures idle { (c : ℕ) → down self.old ≡ Some c
            → LeavesOnly moment left_since self.old self.new (may_leave self.old) }
        ensures cause { HasKeepCause (faults self.old) (faults self.new) result }
        ensures no_memory_taken { IsErrOf result KeepFault.NoMemory → ⊥ }
        ensures any_moment { down self.old ≡ None
            → LeavesOnly moment left_since self.old self.new
            (λ c. IfSome (told self.old) (λ ps. WithOrWithout ps bytes.now c)) }
        ensures images { down self.old ≡ None
            → LeavesOnly moment bytes_since self.old self.new
            (λ b. IfSome (told self.old) (λ ps. WithOrWithout ps bytes.now (stands_for b))) }
        ensures same_images { (c : ℕ) → down self.old ≡ Some c
            → LeavesOnly moment bytes_since self.old self.new (bytes_left self.old) };

    /// Makes a checkpoint's payload the base, with no memory: no entry stands behind it. `Ok`
    /// acknowledges it: each crash from then on leaves it.
    fn rebase(&mut self, place: u32, bytes: &[u8]) -> Result<(), KeepFault>
        requires room { length bytes.now ≤ spare self.old }
        requires reading { is_whole_checkpoint bytes.now ≡ true }
        requires place { base_place bytes.now ≡ place }
        requires short { length bytes.now < 2 ^ 32 }
        requires format { form self.old ≡ 2 }
        ensures added { OnOk result
            (Told (told self.old) (told self.new) (λ old new. new ≡ old ++ bytes.now ∷ [])) }
        ensures kept { OnOk result (kept self.new ≡ 0) }
        ensures first { OnOk result (start self.new ≡ place) }
        ensures format { form self.new ≡ form self.old }
        ensures up { OnOk result (down self.new ≡ None) }
        ensures not_added { OnErr result
            (Told (told self.old) (told self.new) (λ old new. new ≡ old)) }
        ensures not_kept { OnErr result
            ((kept self.new ≡ kept self.old) × (start self.new ≡ start self.old)) }
        ensures failed { IsErrOf result KeepFault.Fault
            → (down self.old ≡ None)
            × (down self.new ≡ Some (faults self.new))
            × (in_flight self.new ≡ Some bytes.now) }
        ensures is_down { (c : ℕ) → IsErrOf result (KeepFault.Down c) ↔ (down self.old ≡ Some c) }
        ensures stays_down { (c : ℕ) → down self.old ≡ Some c
            → (down self.new ≡ Some c) × (in_flight self.new ≡ in_flight self.old) }
        ensures idle { (c : ℕ) → down self.old ≡ Some c
            → LeavesOnly moment left_since self.old self.new (may_leave self.old) }
        ensures cause { HasKeepCause (faults self.old) (faults self.new) result }
        ensures no_memory_taken { IsErrOf result KeepFault.NoMemory → ⊥ }
        ensures any_moment { down self.old ≡ None
            → LeavesOnly moment left_since self.old self.new
            (λ c. IfSome (told self.old) (λ ps. WithOrWithout ps bytes.now c)) }
        ensures images { down self.old ≡ None
            → LeavesOnly moment bytes_since self.old self.new
            (λ b. IfSome (told self.old) (λ ps. WithOrWithout ps bytes.now (stands_for b))) }
        ensures same_images { (c : ℕ) → down self.old ≡ Some c
            → LeavesOnly moment bytes_since self.old self.new (bytes_left self.old) };

    /// How many calls failed.
    fn fault_count(&self) -> u64
        ensures { result ≡ faults self.now };

    // now is one of the moments since an earlier one
    ghost counts_now: { (k : Self) (t : ℕ) (c : Option (List (List ℕ))) → t ≤ moment k
        → may_leave k c
        → left_since k t c };

    // and since now there is no other
    ghost only_now: { (k : Self) (c : Option (List (List ℕ))) → left_since k (moment k) c
        → may_leave k c };

    // now is one of the moments since an earlier one
    ghost bytes_count_now: { (k : Self) (t : ℕ) (b : List ℕ) → t ≤ moment k
        → bytes_left k b
        → bytes_since k t b };

    // until an append or a rebase has failed, a crash between two calls leaves just the payloads,
    // and these are one of the images
    ghost safe: { (k : Self) (ps : List (List ℕ)) (c : Option (List (List ℕ))) → down k ≡ None
        → told k ≡ Some ps
        → may_leave k c
        → c ≡ Some ps };

    ghost kept_as_image: { (k : Self) (ps : List (List ℕ)) → down k ≡ None
        → told k ≡ Some ps
        → may_leave k (Some ps) };

    // after that, it leaves these with or without that call's
    ghost unsafe_leaves: { (k : Self) (ps : List (List ℕ)) (p : List ℕ)
        (c : Option (List (List ℕ)))
        → told k ≡ Some ps
        → in_flight k ≡ Some p
        → may_leave k c
        → WithOrWithout ps p c };

    // a payload is in flight exactly while the keeper is down
    ghost waits: { (k : Self) → down k ≡ None → in_flight k ≡ None };

    ghost flies: { (k : Self) (c : ℕ) → down k ≡ Some c → (p : List ℕ) × (in_flight k ≡ Some p) };

    ghost counted: { (k : Self) (ps : List (List ℕ)) → told k ≡ Some ps
        → length (entries_of ps) ≡ kept k };

    ghost begins: { (k : Self) (ps : List (List ℕ)) → told k ≡ Some ps
        → first_of ps ≡ start k };

    ghost formed: { (k : Self) → IsTrue (is_format (form k)) };
}
