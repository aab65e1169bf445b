//! A keeper in memory.
ghost use Rattle.std.specs.Prelude.{ℕ, [], ◌≡◌, ◌≤◌, None, length};
ghost use Rattle.cat_keeper.specs.Bases.{base_end, entries_of};

use crate::bases::{base_end, base_place};
use crate::fault::KeepFault;
use crate::keeper::Keeper;
use cat_codes::bytes::Bytes;
use cat_codes::fault::NoMemory;
use std::alloc::Global;
use std::mem;

/// A list of payloads, which a crash leaves, with a list of calls that fail.
#[derive(Drop)]
pub struct MemKeeper {
    alloc: Global,
    payloads: Vec<Bytes>,
    /// How many stand up to the last base, and it with them.
    start: usize,
    /// Room for a payload; while the keeper is down, the one whose append or rebase failed.
    room: Vec<u8>,
    failing: Vec<u64>,
    calls: u64,
    faults: u64,
    down: Option<u64>,
    ghost few: { length (entries_of payloads.items) ≤ 4294967295 },
    ghost started: { start ≡ base_end payloads.items },
}

impl MemKeeper {
    ghost use Rattle.cat_keeper.specs.MemoryKeepers.{keeper_payloads, keeper_failing, keeper_calls, keeper_faults, keeper_down};

    /// A keeper of these payloads, none of whose calls fails.
    pub fn new(alloc: Global, payloads: Vec<Bytes>) -> MemKeeper
        requires few { length payloads.items ≤ 4294967295 }
        ensures payloads { keeper_payloads result ≡ payloads.items }
        ensures failing { keeper_failing result ≡ [] }
        ensures calls { keeper_calls result ≡ 0 }
        ensures faults { keeper_faults result ≡ 0 }
        ensures up { keeper_down result ≡ None }
    {
        let start = base_end(&payloads);
        MemKeeper {
            alloc,
            payloads,
            start,
            room: Vec::new(alloc),
            failing: Vec::new(alloc),
            calls: 0,
            faults: 0,
            down: None,
        }
    }

    /// The same keeper, of which the calls with these numbers fail, counted from 1: those of
    /// `entry` and `base`, and of `append` and `rebase` until the keeper is down.
    pub fn failing(mut self, calls: Vec<u64>) -> MemKeeper
        ensures payloads { keeper_payloads result ≡ keeper_payloads self }
        ensures failing { keeper_failing result ≡ calls.items }
        ensures calls { keeper_calls result ≡ keeper_calls self }
        ensures faults { keeper_faults result ≡ keeper_faults self }
        ensures down { keeper_down result ≡ keeper_down self }
    {
        self.failing = calls;
        self
    }

    /// The payloads, bases among them.
    pub fn payloads(&self) -> &[Bytes]
        ensures { result.now ≡ keeper_payloads self.now }
    {
        &self.payloads
    }
}

impl Keeper for MemKeeper {
    ghost use Rattle.std.specs.Prelude.{ℕ, [], ◌∷◌, ◌++◌, None, Some, true, ◌≡◌, ◌≤◌, ◌<◌, ◌+◌, ◌^◌, ◌↔◌, length, get_or, IsErrOf, IfOk, OnOk, OnErr};
    ghost use Rattle.std.proofs.Common.{inl, refl, sym, ◌∙◌};
    ghost use Rattle.cat_frames.specs.CheckpointLaws.{is_whole_checkpoint};
    ghost use Rattle.cat_frames.specs.Payload.{has_reading};
    ghost use Rattle.cat_keeper.specs.Bases.{base_of, base_place, entries_of};
    ghost use Rattle.cat_keeper.specs.Keeping.{HasKeepCause, WithOrWithout};
    ghost use Rattle.cat_io.specs.Causes.{raised_if};
    ghost use Rattle.cat_io.specs.Crashes.{LeavesOnly, never_known, none_known};
    ghost use Rattle.cat_keeper.specs.Moments.{Within};
    ghost use Rattle.cat_keeper.specs.Listed.{list_counts, list_only};
    ghost use Rattle.cat_keeper.specs.MemoryKeepers.{keeper_payloads, keeper_kept, keeper_start, keeper_form, keeper_spare, keeper_failing, keeper_calls, keeper_next, next_fails, keeper_faults, keeper_down, keeper_in_flight, keeper_images, keeper_moment, keeper_left};
    ghost use Rattle.cat_keeper.specs.KeeperLaws.{told_count, told_first, none_flies, one_flies};

    ghost told = { λ k. Some (keeper_payloads k) };

    ghost kept = { keeper_kept };

    ghost start = { keeper_start };

    ghost form = { keeper_form };

    ghost spare = { keeper_spare };

    ghost down = { keeper_down };

    ghost in_flight = { keeper_in_flight };

    ghost faults = { keeper_faults };

    ghost may_leave = { keeper_images };

    ghost moment = { keeper_moment };

    ghost left_since = { keeper_left };

    ghost stands_for = { λ _. None };

    ghost bytes_left = { λ _. none_known };

    ghost bytes_since = { λ _. never_known };

    ghost counts_now = { λ k t c le now. list_counts (keeper_payloads k) t c le now };

    ghost only_now = { λ k c left. list_only (keeper_payloads k) c left };

    ghost bytes_count_now = { λ k t b le now. now };

    ghost safe = { λ k ps c up told now. now ∙ told };

    ghost kept_as_image = { λ k ps up told. sym told };

    ghost unsafe_leaves = { λ k ps p c told flies now. inl (now ∙ told) };

    ghost waits = { λ k up. none_flies k.room.items k.down up };

    ghost flies = { λ k c down. one_flies k.room.items k.down c down };

    ghost counted = { λ k ps told. told_count (keeper_payloads k) ps told };

    ghost begins = { λ k ps told. told_first (keeper_payloads k) ps told };

    ghost formed = { λ k. refl };

    fn count(&self) -> u32 {
        (self.payloads.len() - self.start) as u32
    }

    fn total(&self) -> u64 {
        self.payloads.len() as u64
    }

    fn first(&self) -> u32 {
        if self.start == 0 {
            return 0;
        }
        base_place(self.payloads[self.start - 1].as_slice())
    }

    fn format(&self) -> u32 {
        2
    }

    /// A copy of a payload, where the call isn't one that is to fail.
    fn entry(&mut self, _alloc: Global, i: u32) -> Result<Bytes, KeepFault>
        requires { i < keeper_kept self.old }
        ensures value { IfOk result
            (λ bytes. bytes ≡ get_or (entries_of (keeper_payloads self.old)) i []) }
        ensures never_down { (c : ℕ) → IsErrOf result (KeepFault.Down c) → ⊥ }
        ensures told { keeper_payloads self.new ≡ keeper_payloads self.old }
        ensures kept { keeper_kept self.new ≡ keeper_kept self.old }
        ensures first { keeper_start self.new ≡ keeper_start self.old }
        ensures format { keeper_form self.new ≡ keeper_form self.old }
        ensures spare { keeper_spare self.new ≡ keeper_spare self.old }
        ensures down { keeper_down self.new ≡ keeper_down self.old }
        ensures in_flight { keeper_in_flight self.new ≡ keeper_in_flight self.old }
        ensures crash { Within (keeper_images self.old) (keeper_images self.new) }
        ensures time { LeavesOnly keeper_moment keeper_left self.old self.new
            (keeper_images self.old) }
        ensures images { LeavesOnly keeper_moment (λ _. never_known) self.old self.new none_known }
        ensures cause { HasKeepCause (keeper_faults self.old) (keeper_faults self.new) result }
        ensures fails { IsErrOf result KeepFault.Fault ↔ (next_fails self.old ≡ true) }
        ensures counts { keeper_faults self.new
            ≡ raised_if (next_fails self.old) (keeper_faults self.old) }
        ensures calls { keeper_calls self.new ≡ keeper_next self.old }
        ensures failing { keeper_failing self.new ≡ keeper_failing self.old }
    {
        self.calls = self.calls.saturating_add(1);
        if self.failing.contains(&self.calls) {
            self.faults = self.faults.saturating_add(1);
            return Err(KeepFault::Fault);
        }
        match self.payloads[self.start + i as usize].clone() {
            Ok(bytes) => Ok(bytes),
            Err(_) => Err(KeepFault::NoMemory),
        }
    }

    /// A copy of the last base, where the call isn't one that is to fail.
    fn base(&mut self, _alloc: Global) -> Result<Option<Bytes>, KeepFault>
        ensures value { IfOk result (λ base. base ≡ base_of (keeper_payloads self.old)) }
        ensures never_down { (c : ℕ) → IsErrOf result (KeepFault.Down c) → ⊥ }
        ensures told { keeper_payloads self.new ≡ keeper_payloads self.old }
        ensures kept { keeper_kept self.new ≡ keeper_kept self.old }
        ensures first { keeper_start self.new ≡ keeper_start self.old }
        ensures format { keeper_form self.new ≡ keeper_form self.old }
        ensures spare { keeper_spare self.new ≡ keeper_spare self.old }
        ensures down { keeper_down self.new ≡ keeper_down self.old }
        ensures in_flight { keeper_in_flight self.new ≡ keeper_in_flight self.old }
        ensures crash { Within (keeper_images self.old) (keeper_images self.new) }
        ensures time { LeavesOnly keeper_moment keeper_left self.old self.new
            (keeper_images self.old) }
        ensures images { LeavesOnly keeper_moment (λ _. never_known) self.old self.new none_known }
        ensures cause { HasKeepCause (keeper_faults self.old) (keeper_faults self.new) result }
        ensures fails { IsErrOf result KeepFault.Fault ↔ (next_fails self.old ≡ true) }
        ensures counts { keeper_faults self.new
            ≡ raised_if (next_fails self.old) (keeper_faults self.old) }
        ensures calls { keeper_calls self.new ≡ keeper_next self.old }
        ensures failing { keeper_failing self.new ≡ keeper_failing self.old }
    {
        self.calls = self.calls.saturating_add(1);
        if self.failing.contains(&self.calls) {
            self.faults = self.faults.saturating_add(1);
            return Err(KeepFault::Fault);
        }
        if self.start == 0 {
            return Ok(None);
        }
        match self.payloads[self.start - 1].clone() {
            Ok(bytes) => Ok(Some(bytes)),
            Err(_) => Err(KeepFault::NoMemory),
        }
    }

    /// Room for a payload, and for one more in the list.
    fn reserve(&mut self, bytes: usize) -> Result<(), NoMemory>
        ensures room { OnOk result (bytes ≤ keeper_spare self.new) }
        ensures spare { keeper_spare self.old ≤ keeper_spare self.new }
        ensures told { keeper_payloads self.new ≡ keeper_payloads self.old }
        ensures kept { keeper_kept self.new ≡ keeper_kept self.old }
        ensures first { keeper_start self.new ≡ keeper_start self.old }
        ensures format { keeper_form self.new ≡ keeper_form self.old }
        ensures down { keeper_down self.new ≡ keeper_down self.old }
        ensures in_flight { keeper_in_flight self.new ≡ keeper_in_flight self.old }
        ensures faults { keeper_faults self.new ≡ keeper_faults self.old }
        ensures crash { Within (keeper_images self.old) (keeper_images self.new) }
        ensures time { LeavesOnly keeper_moment keeper_left self.old self.new
            (keeper_images self.old) }
        ensures images { LeavesOnly keeper_moment (λ _. never_known) self.old self.new none_known }
        ensures calls { keeper_calls self.new ≡ keeper_calls self.old }
        ensures failing { keeper_failing self.new ≡ keeper_failing self.old }
    {
        self.payloads.reserve(1)?;
        self.room.reserve(bytes)?;
        Ok(())
    }

    /// Adds a payload, where the keeper isn't down and the call isn't one that is to fail.
    fn append(&mut self, bytes: &[u8]) -> Result<(), KeepFault>
        requires room { length bytes.now ≤ keeper_spare self.old }
        requires reading { has_reading bytes.now ≡ true }
        requires short { length bytes.now < 2 ^ 32 }
        requires few { keeper_kept self.old < 4294967295 }
        ensures added { OnOk result
            (keeper_payloads self.new ≡ keeper_payloads self.old ++ bytes.now ∷ []) }
        ensures kept { OnOk result (keeper_kept self.new ≡ keeper_kept self.old + 1) }
        ensures first { keeper_start self.new ≡ keeper_start self.old }
        ensures format { keeper_form self.new ≡ keeper_form self.old }
        ensures up { OnOk result (keeper_down self.new ≡ None) }
        ensures not_added { OnErr result (keeper_payloads self.new ≡ keeper_payloads self.old) }
        ensures not_kept { OnErr result (keeper_kept self.new ≡ keeper_kept self.old) }
        ensures failed { IsErrOf result KeepFault.Fault
            → (keeper_down self.old ≡ None)
            × (keeper_down self.new ≡ Some (keeper_faults self.new))
            × (keeper_in_flight self.new ≡ Some bytes.now) }
        ensures is_down { (c : ℕ)
            → IsErrOf result (KeepFault.Down c) ↔ (keeper_down self.old ≡ Some c) }
        ensures stays_down { (c : ℕ) → keeper_down self.old ≡ Some c
            → (keeper_down self.new ≡ Some c)
            × (keeper_in_flight self.new ≡ keeper_in_flight self.old) }
        ensures idle { (c : ℕ) → keeper_down self.old ≡ Some c
            → LeavesOnly keeper_moment keeper_left self.old self.new (keeper_images self.old) }
        ensures cause { HasKeepCause (keeper_faults self.old) (keeper_faults self.new) result }
        ensures no_memory_taken { IsErrOf result KeepFault.NoMemory → ⊥ }
        ensures any_moment { keeper_down self.old ≡ None
            → LeavesOnly keeper_moment keeper_left self.old self.new
            (WithOrWithout (keeper_payloads self.old) bytes.now) }
        ensures images { keeper_down self.old ≡ None
            → LeavesOnly keeper_moment (λ _. never_known) self.old self.new
            (λ b. WithOrWithout (keeper_payloads self.old) bytes.now None) }
        ensures same_images { (c : ℕ) → keeper_down self.old ≡ Some c
            → LeavesOnly keeper_moment (λ _. never_known) self.old self.new none_known }
        ensures fails { keeper_down self.old ≡ None
            → IsErrOf result KeepFault.Fault ↔ (next_fails self.old ≡ true) }
        ensures counts { keeper_down self.old ≡ None
            → keeper_faults self.new ≡ raised_if (next_fails self.old) (keeper_faults self.old) }
        ensures stands { (c : ℕ) → keeper_down self.old ≡ Some c
            → (keeper_calls self.new ≡ keeper_calls self.old)
            × (keeper_faults self.new ≡ keeper_faults self.old) }
        ensures calls { keeper_down self.old ≡ None → keeper_calls self.new ≡ keeper_next self.old }
        ensures failing { keeper_failing self.new ≡ keeper_failing self.old }
    {
        if let Some(count) = self.down {
            return Err(KeepFault::Down(count));
        }
        self.room.clear();
        let _ = self.room.extend_from_slice(bytes);
        self.calls = self.calls.saturating_add(1);
        if self.failing.contains(&self.calls) {
            self.faults = self.faults.saturating_add(1);
            self.down = Some(self.faults);
            return Err(KeepFault::Fault);
        }
        let room = mem::replace(&mut self.room, Vec::new(self.alloc));
        let Ok(payload) = Bytes::from_vec(room) else {
            unreachable!()
        };
        self.payloads.push_reserved(payload);
        Ok(())
    }

    /// Adds a base, where the keeper isn't down and the call isn't one that is to fail.
    fn rebase(&mut self, place: u32, bytes: &[u8]) -> Result<(), KeepFault>
        requires room { length bytes.now ≤ keeper_spare self.old }
        requires reading { is_whole_checkpoint bytes.now ≡ true }
        requires place { base_place bytes.now ≡ place }
        requires short { length bytes.now < 2 ^ 32 }
        requires format { keeper_form self.old ≡ 2 }
        ensures added { OnOk result
            (keeper_payloads self.new ≡ keeper_payloads self.old ++ bytes.now ∷ []) }
        ensures kept { OnOk result (keeper_kept self.new ≡ 0) }
        ensures first { OnOk result (keeper_start self.new ≡ place) }
        ensures format { keeper_form self.new ≡ keeper_form self.old }
        ensures up { OnOk result (keeper_down self.new ≡ None) }
        ensures not_added { OnErr result (keeper_payloads self.new ≡ keeper_payloads self.old) }
        ensures not_kept { OnErr result
            ((keeper_kept self.new ≡ keeper_kept self.old)
            × (keeper_start self.new ≡ keeper_start self.old)) }
        ensures failed { IsErrOf result KeepFault.Fault
            → (keeper_down self.old ≡ None)
            × (keeper_down self.new ≡ Some (keeper_faults self.new))
            × (keeper_in_flight self.new ≡ Some bytes.now) }
        ensures is_down { (c : ℕ)
            → IsErrOf result (KeepFault.Down c) ↔ (keeper_down self.old ≡ Some c) }
        ensures stays_down { (c : ℕ) → keeper_down self.old ≡ Some c
            → (keeper_down self.new ≡ Some c)
            × (keeper_in_flight self.new ≡ keeper_in_flight self.old) }
        ensures idle { (c : ℕ) → keeper_down self.old ≡ Some c
            → LeavesOnly keeper_moment keeper_left self.old self.new (keeper_images self.old) }
        ensures cause { HasKeepCause (keeper_faults self.old) (keeper_faults self.new) result }
        ensures no_memory_taken { IsErrOf result KeepFault.NoMemory → ⊥ }
        ensures any_moment { keeper_down self.old ≡ None
            → LeavesOnly keeper_moment keeper_left self.old self.new
            (WithOrWithout (keeper_payloads self.old) bytes.now) }
        ensures images { keeper_down self.old ≡ None
            → LeavesOnly keeper_moment (λ _. never_known) self.old self.new
            (λ b. WithOrWithout (keeper_payloads self.old) bytes.now None) }
        ensures same_images { (c : ℕ) → keeper_down self.old ≡ Some c
            → LeavesOnly keeper_moment (λ _. never_known) self.old self.new none_known }
        ensures fails { keeper_down self.old ≡ None
            → IsErrOf result KeepFault.Fault ↔ (next_fails self.old ≡ true) }
        ensures counts { keeper_down self.old ≡ None
            → keeper_faults self.new ≡ raised_if (next_fails self.old) (keeper_faults self.old) }
        ensures stands { (c : ℕ) → keeper_down self.old ≡ Some c
            → (keeper_calls self.new ≡ keeper_calls self.old)
            × (keeper_faults self.new ≡ keeper_faults self.old) }
        ensures calls { keeper_down self.old ≡ None → keeper_calls self.new ≡ keeper_next self.old }
        ensures failing { keeper_failing self.new ≡ keeper_failing self.old }
    {
        if let Some(count) = self.down {
            return Err(KeepFault::Down(count));
        }
        self.room.clear();
        let _ = self.room.extend_from_slice(bytes);
        self.calls = self.calls.saturating_add(1);
        if self.failing.contains(&self.calls) {
            self.faults = self.faults.saturating_add(1);
            self.down = Some(self.faults);
            return Err(KeepFault::Fault);
        }
        let room = mem::replace(&mut self.room, Vec::new(self.alloc));
        let Ok(payload) = Bytes::from_vec(room) else {
            unreachable!()
        };
        self.payloads.push_reserved(payload);
        self.start = self.payloads.len();
        let _ = place;
        Ok(())
    }

    fn fault_count(&self) -> u64 {
        self.faults
    }
}
