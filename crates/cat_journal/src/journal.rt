//! A keeper on a disk.
ghost use Rattle.std.specs.Prelude.{ℕ, List, [], ◌∷◌, ◌++◌, None, Some, ◌≡◌, ◌≢◌, ◌<◌, ◌≤◌, ◌+◌, ◌^◌, length, vec_capacity, Ok, IfOk, IfErr, IfSome, MatchResult, true};
ghost use Rattle.std.proofs.Props.{props};
ghost use Rattle.cat_io.specs.Causes.{Rose};
ghost use Rattle.cat_io.specs.Crashes.{put, LeavesOnly, Told, Only};
ghost use Rattle.cat_keeper.specs.Keeping.{WithOrWithout, is_format};
ghost use Rattle.cat_journal.specs.Frames.{form_gate, format_by, max_entries, payload_of, recovered, new_journal, frame as frame_of};
ghost use Rattle.cat_journal.specs.Held.{held_count, outcome, Holds, IsHeld-prop, IsSafe, IsSafe-prop, IsTorn, IsTorn-prop};
ghost use Rattle.cat_journal.specs.Reading.{OnlyReads, OpensOnly, IsFaultOf};

use crate::append::{append_frame, persist};
use crate::fault::OpenFault;
use crate::opening::{format_of, load};
use crate::points::Points;
use crate::read_ahead::ReadAhead;
use crate::reading::read_payload;
use cat_codes::bytes::Bytes;
use cat_codes::fault::NoMemory;
use cat_io::Disk;
use cat_keeper::{KeepFault, Keeper};
use std::alloc::Global;
use std::marker::Send;

/// A journal.
#[derive(Drop)]
pub struct Journal<D: Disk> {
    pub(crate) disk: ReadAhead<D>,
    /// 1 or 2.
    pub(crate) format: u32,
    points: Points,
    /// Room for a frame; while the journal is down, the one whose append or rebase failed.
    frame: Vec<u8>,
    down: Option<u64>,
    ghost formed: { IfSome (D.told disk) (λ bytes. format_by (form_gate bytes) ≡ format) } by { Prim.hlevel props },
    ghost held: { IfSome (D.told disk) (Holds points) } by { Prim.hlevel (IsHeld-prop, props) },
    ghost safe: { down ≡ None → IfSome (D.told disk) (IsSafe (held_count points) points.end (D.may_leave disk)) } by { Prim.hlevel (IsSafe-prop, props) },
    ghost torn: { (c : ℕ) → down ≡ Some c → IfSome (D.told disk) (IsTorn (held_count points) points.end (payload_of frame.items) (D.may_leave disk)) } by { Prim.hlevel (IsTorn-prop, props) },
    ghost fits: { points.end + 1 < 2 ^ 64 },
    ghost room: { held_count points ≤ points.end },
    ghost few: { length points.gates.items ≤ max_entries },
    ghost known: { is_format format ≡ true },
}

/// A frame and the next gate, closed.
fn spell(out: &mut Vec<u8>, payload: &[u8])
    requires room { length payload.now + 5 ≤ vec_capacity out.old }
    requires short { length payload.now < 2 ^ 32 }
    ensures { out.new.items ≡ frame_of payload.now ++ 0 ∷ [] }
{
    out.clear();
    let size = (payload.len() as u32).to_be_bytes();
    let _ = out.extend_from_slice(&size);
    let _ = out.extend_from_slice(payload);
    out.push_reserved(0);
}

impl<D: Disk + Send> Journal<D> {
    ghost use Rattle.cat_journal.specs.Journals.{journal_disk};

    /// Opens the journal on a disk, and makes a new one where the disk is empty. Where its disk
    /// fails, an empty disk may have any bytes, up to the 17 of a new journal; where the journal is
    /// refused for anything else, the bytes are as they were. Nothing is written to a disk that has
    /// bytes. Once the journal is open, a crash leaves just what its disk reads.
    pub fn open(alloc: Global, disk: D) -> Result<Journal<D>, (D, OpenFault)>
        ensures payloads { IfOk result
            (λ j. Told (D.told disk) (⟦<Journal<D> as Keeper>⟧.told j)
            (λ bytes ps. recovered bytes ≡ Ok ps)) }
        ensures holds { IfOk result
            (λ j. Told (D.told (journal_disk j)) (⟦<Journal<D> as Keeper>⟧.told j)
            (λ bytes ps. recovered bytes ≡ Ok ps)) }
        ensures fault { IfErr result
            (λ e. Told (D.told disk) (D.told e.0) (λ before after. IsFaultOf before e.1)) }
        ensures format { IfOk result
            (λ j. IfSome (D.told (journal_disk j))
            (λ bytes. format_by (form_gate bytes) ≡ ⟦<Journal<D> as Keeper>⟧.form j)) }
        ensures up { IfOk result (λ j. ⟦<Journal<D> as Keeper>⟧.down j ≡ None) }
        ensures new { IfOk result
            (λ j. Told (D.told disk) (D.told (journal_disk j))
            (λ before after. before ≡ [] → after ≡ new_journal)) }
        ensures empty { IfErr result
            (λ e. Told (D.told disk) (D.told e.0)
            (λ before after. before ≡ [] → length after ≤ 17)) }
        ensures unspoiled { IfErr result
            (λ e. e.1 ≢ OpenFault.Fault → Told (D.told disk) (D.told e.0) (λ b a. a ≡ b)) }
        ensures unwritten { IfSome (D.told disk) (λ bytes. 0 < length bytes → MatchResult result
            (λ j. OnlyReads D.told D.may_leave D.moment D.left_since disk (journal_disk j))
            (λ e. OnlyReads D.told D.may_leave D.moment D.left_since disk e.0)) }
        ensures images { IfSome (D.told disk) (λ bytes. MatchResult result
            (λ j. OpensOnly D.may_leave D.moment D.left_since disk (journal_disk j) bytes)
            (λ e. OpensOnly D.may_leave D.moment D.left_since disk e.0 bytes)) }
        ensures durable { IfOk result
            (λ j. Only (D.told (journal_disk j)) (D.may_leave (journal_disk j))) }
        ensures cause { MatchResult result
            (λ j. D.faults disk ≤ ⟦<Journal<D> as Keeper>⟧.faults j)
            (λ e. (D.faults disk ≤ D.faults e.0)
            × (e.1 ≡ OpenFault.Fault → Rose (D.faults disk) (D.faults e.0))) }
        ensures stays { MatchResult result
            (λ j. ⟦<Journal<D> as Keeper>⟧.faults j ≡ D.faults disk)
            (λ e. e.1 ≢ OpenFault.Fault → D.faults e.0 ≡ D.faults disk) }
    {
        let mut disk = ReadAhead::new(disk);
        match load(alloc, &mut disk) {
            Ok((points, newer)) => Ok(Journal {
                disk,
                format: format_of(newer),
                points,
                frame: Vec::new(alloc),
                down: None,
            }),
            Err(fault) => Err((disk.into_inner(), fault)),
        }
    }

    /// The same journal, of format 2: the format's gate is opened.
    pub(crate) fn open_format(self) -> Result<Journal<D>, (D, OpenFault)>
        requires older { self.format ≢ 2 }
        requires up { self.down ≡ None }
        ensures format { IfOk result (λ j. j.format ≡ 2) }
        ensures told { IfOk result
            (λ j. Told (⟦<Journal<D> as Keeper>⟧.told self) (⟦<Journal<D> as Keeper>⟧.told j)
            (λ before after. after ≡ before)) }
        ensures bytes { IfOk result
            (λ j. Told (D.told self.disk) (D.told j.disk)
            (λ before after. after ≡ put 15 (1 ∷ []) before)) }
        ensures up { IfOk result (λ j. j.down ≡ None) }
        ensures durable { IfOk result (λ j. Only (D.told j.disk) (D.may_leave j.disk)) }
        ensures fault { IfErr result (λ e. e.1 ≡ OpenFault.Fault) }
        ensures stands { IfErr result
            (λ e. Told (D.told self.disk) (D.told e.0)
            (λ before after. recovered after ≡ recovered before)) }
        ensures images { IfSome (D.told self.disk) (λ bytes. MatchResult result
            (λ j. LeavesOnly D.moment D.left_since self.disk j.disk
            (λ c. recovered c ≡ recovered bytes))
            (λ e. LeavesOnly D.moment D.left_since self.disk e.0
            (λ c. recovered c ≡ recovered bytes))) }
        ensures cause { MatchResult result
            (λ j. D.faults j.disk ≡ D.faults self.disk)
            (λ e. Rose (D.faults self.disk) (D.faults e.0)) }
    {
        let Journal {
            mut disk,
            points,
            frame,
            ..
        } = self;
        match persist(&mut disk, 15, &[1]) {
            Ok(()) => Ok(Journal {
                disk,
                format: 2,
                points,
                frame,
                down: None,
            }),
            Err(_) => Err((disk.into_inner(), OpenFault::Fault)),
        }
    }

    /// The disk, which has more bytes than a header, and among them the gate of the journal's
    /// format. What it reads opens again with the payloads that are kept, and after an append or a
    /// rebase that failed maybe with that one too; and so does what a crash leaves.
    pub fn into_disk(self) -> D
        ensures disk { result ≡ journal_disk self }
        ensures faults { D.faults result ≡ ⟦<Journal<D> as Keeper>⟧.faults self }
        ensures headed { IfSome (D.told result) (λ bytes. 16 < length bytes) }
        ensures format { IfSome (D.told result)
            (λ b. format_by (form_gate b) ≡ ⟦<Journal<D> as Keeper>⟧.form self) }
        ensures payloads { ⟦<Journal<D> as Keeper>⟧.down self ≡ None
            → Told (⟦<Journal<D> as Keeper>⟧.told self) (D.told result)
            (λ ps bytes. recovered bytes ≡ Ok ps) }
        ensures durable { ⟦<Journal<D> as Keeper>⟧.down self ≡ None
            → Only (D.told result) (D.may_leave result) }
        ensures in_flight { (p : List ℕ) → ⟦<Journal<D> as Keeper>⟧.in_flight self ≡ Some p
            → Told (⟦<Journal<D> as Keeper>⟧.told self) (D.told result)
            (λ ps bytes. WithOrWithout ps p (outcome bytes)) }
        ensures torn { (p : List ℕ) → ⟦<Journal<D> as Keeper>⟧.in_flight self ≡ Some p
            → IfSome (⟦<Journal<D> as Keeper>⟧.told self)
            (λ ps. (c : List ℕ) → D.may_leave result c → WithOrWithout ps p (outcome c)) }
    {
        let Journal { disk, .. } = self;
        disk.into_inner()
    }
}

impl<D: Disk + Send> Keeper for Journal<D> {
    ghost use Rattle.std.specs.Prelude.{ℕ, List, [], ◌∷◌, ◌++◌, None, Some, true, ◌≡◌, ◌≤◌, ◌<◌, ◌+◌, ◌-◌, ◌^◌, ◌↔◌, length, vec_len, vec_capacity, nat_lt, if◌then◌else◌, IsErrOf, IfSome, OnOk, OnErr};
    ghost use Rattle.std.specs.Option.{option_map};
    ghost use Rattle.cat_io.specs.Crashes.{LeavesOnly, Told};
    ghost use Rattle.cat_frames.specs.CheckpointLaws.{is_whole_checkpoint};
    ghost use Rattle.cat_frames.specs.Payload.{has_reading};
    ghost use Rattle.cat_keeper.specs.Bases.{base_place};
    ghost use Rattle.cat_keeper.specs.Keeping.{HasKeepCause, WithOrWithout};
    ghost use Rattle.cat_journal.specs.Frames.{payload_of, with_frame};
    ghost use Rattle.cat_journal.specs.Held.{first_payloads, held_count, outcome};
    ghost use Rattle.cat_journal.specs.Journals.{journal_disk, journal_payloads, journal_kept, journal_start, journal_form, journal_spare, journal_down, journal_in_flight, journal_images, journal_moment, journal_left, journal_bytes};
    ghost use Rattle.cat_keeper.specs.KeeperLaws.{none_flies, one_flies};
    ghost use Rattle.cat_journal.specs.Laws.{safe_images, kept_image, torn_images, begun_payloads, counted_payloads};

    ghost told = { λ j. option_map (first_payloads (held_count j.points)) (D.told j.disk) };

    ghost kept = { λ j. length j.points.gates.items };

    ghost start = { λ j. j.points.first };

    ghost form = { λ j. j.format };

    ghost spare = { λ j. if nat_lt (vec_len j.points.gates) (vec_capacity j.points.gates)
        then vec_capacity j.frame - 5
        else 0 };

    ghost down = { λ j. j.down };

    ghost in_flight = { λ j. option_map (λ (c : ℕ). payload_of j.frame.items) j.down };

    ghost faults = { λ j. D.faults j.disk };

    ghost may_leave = { λ j r. (c : List ℕ) × D.may_leave j.disk c × (outcome c ≡ r) };

    ghost moment = { λ j. D.moment j.disk };

    ghost left_since = { λ j t r. (c : List ℕ) × D.left_since j.disk t c × (outcome c ≡ r) };

    ghost stands_for = { λ b. outcome b };

    ghost bytes_left = { λ j b. D.may_leave j.disk b };

    ghost bytes_since = { λ j t b. D.left_since j.disk t b };

    ghost counts_now = { λ j t r le now. (now.0, D.counts_now j.disk t now.0 le now.1, now.2) };

    ghost only_now = { λ j r left. (left.0, D.only_now j.disk left.0 left.1, left.2) };

    ghost bytes_count_now = { λ j t b le now. D.counts_now j.disk t b le now };

    ghost safe = { λ j ps r up told now. safe_images (D.told j.disk) (held_count j.points)
        j.points.end (D.may_leave j.disk) (j.safe up) ps told r now };

    ghost kept_as_image = { λ j ps up told. kept_image (D.told j.disk) (held_count j.points)
        j.points.end (D.may_leave j.disk) (λ c is. D.reads_as_image j.disk c is) (j.safe up) ps
        told };

    ghost unsafe_leaves = { λ j ps p r told flies now. torn_images (D.told j.disk) j.points
        (payload_of j.frame.items) (D.may_leave j.disk) j.down j.held j.torn ps p told flies
        r now };

    ghost waits = { λ j up. none_flies (payload_of j.frame.items) j.down up };

    ghost flies = { λ j c down. one_flies (payload_of j.frame.items) j.down c down };

    ghost counted = { λ j ps told. counted_payloads (D.told j.disk) j.points j.held ps told };

    ghost begins = { λ j ps told. begun_payloads (D.told j.disk) j.points j.held ps told };

    ghost formed = { λ j. j.known };

    fn count(&self) -> u32 {
        self.points.gates.len() as u32
    }

    fn total(&self) -> u64 {
        self.points.before + self.points.gates.len() as u64
    }

    fn first(&self) -> u32 {
        self.points.first
    }

    fn format(&self) -> u32 {
        self.format
    }

    fn entry(&mut self, alloc: Global, i: u32) -> Result<Bytes, KeepFault> {
        let at = self.points.gates[i as usize];
        let mut payload = Vec::new(alloc);
        match read_payload(&mut self.disk, at, &mut payload) {
            Ok(()) => {}
            Err(fault) => return Err(fault),
        }
        match Bytes::from_vec(payload) {
            Ok(bytes) => Ok(bytes),
            Err(_) => Err(KeepFault::NoMemory),
        }
    }

    fn base(&mut self, alloc: Global) -> Result<Option<Bytes>, KeepFault> {
        if self.points.before == 0 {
            return Ok(None);
        }
        let mut payload = Vec::new(alloc);
        match read_payload(&mut self.disk, self.points.base, &mut payload) {
            Ok(()) => {}
            Err(fault) => return Err(fault),
        }
        match Bytes::from_vec(payload) {
            Ok(bytes) => Ok(Some(bytes)),
            Err(_) => Err(KeepFault::NoMemory),
        }
    }

    fn reserve(&mut self, bytes: usize) -> Result<(), NoMemory> {
        let Some(room) = bytes.checked_add(5) else {
            return Err(NoMemory);
        };
        self.points.gates.reserve(1)?;
        self.frame.reserve(room)?;
        Ok(())
    }

    /// Where it answers `Ok`, it has written the frame behind the first closed gate, with the next gate
    /// closed, and then that gate, open; and nothing else.
    fn append(&mut self, bytes: &[u8]) -> Result<(), KeepFault>
        requires room { length bytes.now ≤ journal_spare self.old }
        requires reading { has_reading bytes.now ≡ true }
        requires short { length bytes.now < 2 ^ 32 }
        requires few { journal_kept self.old < 4294967295 }
        ensures added { OnOk result
            (Told (journal_payloads D.told self.old) (journal_payloads D.told self.new)
            (λ old new. new ≡ old ++ bytes.now ∷ [])) }
        ensures kept { OnOk result (journal_kept self.new ≡ journal_kept self.old + 1) }
        ensures first { journal_start self.new ≡ journal_start self.old }
        ensures format { journal_form self.new ≡ journal_form self.old }
        ensures up { OnOk result (journal_down self.new ≡ None) }
        ensures not_added { OnErr result
            (Told (journal_payloads D.told self.old) (journal_payloads D.told self.new)
            (λ old new. new ≡ old)) }
        ensures not_kept { OnErr result (journal_kept self.new ≡ journal_kept self.old) }
        ensures failed { IsErrOf result KeepFault.Fault
            → (journal_down self.old ≡ None)
            × (journal_down self.new ≡ Some (D.faults (journal_disk self.new)))
            × (journal_in_flight self.new ≡ Some bytes.now) }
        ensures is_down { (c : ℕ)
            → IsErrOf result (KeepFault.Down c) ↔ (journal_down self.old ≡ Some c) }
        ensures stays_down { (c : ℕ) → journal_down self.old ≡ Some c
            → (journal_down self.new ≡ Some c)
            × (journal_in_flight self.new ≡ journal_in_flight self.old) }
        ensures idle { (c : ℕ) → journal_down self.old ≡ Some c
            → LeavesOnly (journal_moment D.moment) (journal_left D.left_since) self.old self.new
            (journal_images D.may_leave self.old) }
        ensures cause { HasKeepCause (D.faults (journal_disk self.old))
            (D.faults (journal_disk self.new)) result }
        ensures no_memory_taken { IsErrOf result KeepFault.NoMemory → ⊥ }
        ensures any_moment { journal_down self.old ≡ None
            → LeavesOnly (journal_moment D.moment) (journal_left D.left_since) self.old self.new
            (λ c. IfSome (journal_payloads D.told self.old) (λ ps. WithOrWithout ps bytes.now c)) }
        ensures images { journal_down self.old ≡ None
            → LeavesOnly (journal_moment D.moment) (journal_bytes D.left_since) self.old self.new
            (λ b. IfSome (journal_payloads D.told self.old)
            (λ ps. WithOrWithout ps bytes.now (outcome b))) }
        ensures same_images { (c : ℕ) → journal_down self.old ≡ Some c
            → LeavesOnly (journal_moment D.moment) (journal_bytes D.left_since) self.old self.new
            (D.may_leave (journal_disk self.old)) }
        ensures exact { OnOk result
            (Told (D.told (journal_disk self.old)) (D.told (journal_disk self.new))
            (λ old new. new ≡ with_frame bytes.now old)) }
    {
        if let Some(count) = self.down {
            return Err(KeepFault::Down(count));
        }
        spell(&mut self.frame, bytes);
        match append_frame(&mut self.disk, self.points.end, bytes, &self.frame) {
            Ok(()) => {
                self.points.gates.push_reserved(self.points.end);
                self.points.end += 5 + bytes.len() as u64;
                self.frame.clear();
                Ok(())
            }
            Err(_) => {
                self.down = Some(self.disk.fault_count());
                Err(KeepFault::Fault)
            }
        }
    }

    /// Where it answers `Ok`, it has written the frame behind the first closed gate, with the next gate
    /// closed, and then that gate, open; and nothing else.
    fn rebase(&mut self, place: u32, bytes: &[u8]) -> Result<(), KeepFault>
        requires room { length bytes.now ≤ journal_spare self.old }
        requires reading { is_whole_checkpoint bytes.now ≡ true }
        requires place { base_place bytes.now ≡ place }
        requires short { length bytes.now < 2 ^ 32 }
        requires format { journal_form self.old ≡ 2 }
        ensures added { OnOk result
            (Told (journal_payloads D.told self.old) (journal_payloads D.told self.new)
            (λ old new. new ≡ old ++ bytes.now ∷ [])) }
        ensures kept { OnOk result (journal_kept self.new ≡ 0) }
        ensures first { OnOk result (journal_start self.new ≡ place) }
        ensures format { journal_form self.new ≡ journal_form self.old }
        ensures up { OnOk result (journal_down self.new ≡ None) }
        ensures not_added { OnErr result
            (Told (journal_payloads D.told self.old) (journal_payloads D.told self.new)
            (λ old new. new ≡ old)) }
        ensures not_kept { OnErr result
            ((journal_kept self.new ≡ journal_kept self.old)
            × (journal_start self.new ≡ journal_start self.old)) }
        ensures failed { IsErrOf result KeepFault.Fault
            → (journal_down self.old ≡ None)
            × (journal_down self.new ≡ Some (D.faults (journal_disk self.new)))
            × (journal_in_flight self.new ≡ Some bytes.now) }
        ensures is_down { (c : ℕ)
            → IsErrOf result (KeepFault.Down c) ↔ (journal_down self.old ≡ Some c) }
        ensures stays_down { (c : ℕ) → journal_down self.old ≡ Some c
            → (journal_down self.new ≡ Some c)
            × (journal_in_flight self.new ≡ journal_in_flight self.old) }
        ensures idle { (c : ℕ) → journal_down self.old ≡ Some c
            → LeavesOnly (journal_moment D.moment) (journal_left D.left_since) self.old self.new
            (journal_images D.may_leave self.old) }
        ensures cause { HasKeepCause (D.faults (journal_disk self.old))
            (D.faults (journal_disk self.new)) result }
        ensures no_memory_taken { IsErrOf result KeepFault.NoMemory → ⊥ }
        ensures any_moment { journal_down self.old ≡ None
            → LeavesOnly (journal_moment D.moment) (journal_left D.left_since) self.old self.new
            (λ c. IfSome (journal_payloads D.told self.old) (λ ps. WithOrWithout ps bytes.now c)) }
        ensures images { journal_down self.old ≡ None
            → LeavesOnly (journal_moment D.moment) (journal_bytes D.left_since) self.old self.new
            (λ b. IfSome (journal_payloads D.told self.old)
            (λ ps. WithOrWithout ps bytes.now (outcome b))) }
        ensures same_images { (c : ℕ) → journal_down self.old ≡ Some c
            → LeavesOnly (journal_moment D.moment) (journal_bytes D.left_since) self.old self.new
            (D.may_leave (journal_disk self.old)) }
        ensures exact { OnOk result
            (Told (D.told (journal_disk self.old)) (D.told (journal_disk self.new))
            (λ old new. new ≡ with_frame bytes.now old)) }
    {
        if let Some(faults) = self.down {
            return Err(KeepFault::Down(faults));
        }
        spell(&mut self.frame, bytes);
        match append_frame(&mut self.disk, self.points.end, bytes, &self.frame) {
            Ok(()) => {
                self.points.rebase();
                self.points.first = place;
                self.points.end += 5 + bytes.len() as u64;
                self.frame.clear();
                Ok(())
            }
            Err(_) => {
                let count = self.disk.fault_count();
                self.down = Some(count);
                Err(KeepFault::Fault)
            }
        }
    }

    fn fault_count(&self) -> u64 {
        self.disk.fault_count()
    }
}
