//! Format 2 for a journal.

ghost use Rattle.std.specs.Prelude.{ℕ, List, ◌≡◌, ◌≢◌, ◌<◌, None, IfErr, IfOk, IfSome, IsTrue, MatchResult, length, string_bytes, true};
ghost use Rattle.cat_io.specs.Causes.{Rose};
ghost use Rattle.cat_io.specs.Crashes.{Only, Told};
ghost use Rattle.cat_io.specs.Places.{OthersStay};
ghost use Rattle.cat_core.specs.Opening.{IsIllegalAt, IsLedTo};
ghost use Rattle.cat_journal.specs.Frames.{form_gate, is_newer, recovered};
ghost use Rattle.cat_journal.specs.Reading.{IsMigrated, MigratesOnly, OnlyReads};
ghost use Rattle.cat_model.specs.Book.{Book};
ghost use Rattle.cat_model.specs.Limits.{program_limits};
ghost use Rattle.cat_model.specs.Turns.{Opened};
ghost use Rattle.cat_cli.specs.Journals.{Begins, DisksFell, IsBack, IsJournalOf, StandsFor, told_at};
ghost use Rattle.cat_cli.specs.Lines.{migrated_line};
ghost use Rattle.cat_cli.specs.Migrating.{IsLookedAt, IsOpenedAs, SparesOnly};
ghost use Rattle.cat_cli.specs.Opening.{IsReason};
ghost use Rattle.cat_cli.specs.Runs.{Migrates, MigratesKnown, spares_disks, tells_all};
ghost use Rattle.cat_cli.specs.Surviving.{Spared, Unspoiled, images_at, images_of};
ghost use Rattle.cat_cli.specs.Unadded.{IsStill};

use crate::checking::tell_line;
use crate::status::Status;
use crate::still::{Still, Stood};
use crate::unopened::{Unopened, refuse};
use cat_core::{Store, StoreFault};
use cat_io::{Disk, Disks, Sink};
use cat_journal::Journal;
use cat_keeper::Keeper;
use cat_model::limits::Limits;
use std::alloc::{AllocError, Global};
use std::marker::{Brand, Send};

#[tactic(auto, unfolding(crate::specs::Lines::migrated_line))]
fn migrated_line(alloc: Global, entries: u32) -> Result<String, AllocError>
    ensures { IfOk result (λ line. string_bytes line ≡ migrated_line entries) }
{
    format!(in alloc; "format 2 entries {entries}\n")
}

// Makes the journal of a disk one of format 2, whose disk comes back.
fn renew<D: Disk + Send>(alloc: Global, disk: D) -> (D, Result<(), Unopened>)
    ensures newer { IfOk result.1
        (λ _. IfSome (D.told result.0) (λ bytes. is_newer (form_gate bytes) ≡ true)) }
    ensures bytes { IfOk result.1 (λ _. Told (D.told disk) (D.told result.0) IsMigrated) }
    ensures payloads { IfOk result.1
        (λ _. Told (D.told disk) (D.told result.0)
        (λ before after. recovered after ≡ recovered before)) }
    ensures headed { IfOk result.1 (λ _. IfSome (D.told result.0) (λ bytes. 16 < length bytes)) }
    ensures durable { IfOk result.1 (λ _. Only (D.told result.0) (D.may_leave result.0)) }
    ensures reason { IfErr result.1 (λ why. IsReason (D.told disk) why) }
    ensures stands { IfErr result.1
        (λ _. Told (D.told disk) (D.told result.0)
        (λ before after. 0 < length before → recovered after ≡ recovered before)) }
    ensures unwritten { IfErr result.1
        (λ why. why ≢ Unopened.Fault → IfSome (D.told disk) (λ bytes. 0 < length bytes
        → OnlyReads D.told D.may_leave D.moment D.left_since disk result.0)) }
    ensures images { IfSome (D.told disk)
        (MigratesOnly D.may_leave D.moment D.left_since disk result.0) }
    ensures cause { IfErr result.1
        (λ why. why ≡ Unopened.Fault → Rose (D.faults disk) (D.faults result.0)) }
    ensures level { MatchResult result.1 (λ _. D.faults result.0 ≡ D.faults disk)
        (λ why. why ≢ Unopened.Fault → D.faults result.0 ≡ D.faults disk) }
{
    match cat_journal::migrate(alloc, disk) {
        Ok(journal) => (journal.into_disk(), Ok(())),
        Err((disk, fault)) => (disk, Err(Unopened::from(fault))),
    }
}

// How many entries the log of a journal has whose catalogue is opened, or why none is. The journal
// comes back with all its bytes.
fn count_on<B: Stood + Send, D: Disk + Send>(
    alloc: Global,
    journal: Journal<D>,
) -> (Journal<D>, Result<u32, StoreFault>)
    requires up { ⟦<Journal<D> as Keeper>⟧.down journal ≡ None }
    requires begun { IsStill ⟦<Journal<D> as Keeper>⟧.told ⟦<Journal<D> as Keeper>⟧.in_flight
        ⟦<Journal<D> as Keeper>⟧.moment ⟦<Journal<D> as Keeper>⟧.bytes_left
        ⟦<Journal<D> as Keeper>⟧.bytes_since B.since B.count B.past B.began journal }
    requires shaped { B.shape (⟦<Journal<D> as Keeper>⟧.form journal) }
    ensures counted { IfOk result.1
        (λ place. (o : Opened) × (book : Book) × (place ≡ book.state.place)
        × IsLedTo (⟦<Journal<D> as Keeper>⟧.told journal) (⟦<Journal<D> as Keeper>⟧.kept journal)
        program_limits o book) }
    ensures told { ⟦<Journal<D> as Keeper>⟧.told result.0 ≡ ⟦<Journal<D> as Keeper>⟧.told journal }
    ensures up { ⟦<Journal<D> as Keeper>⟧.down result.0 ≡ None }
    ensures still { IsStill ⟦<Journal<D> as Keeper>⟧.told ⟦<Journal<D> as Keeper>⟧.in_flight
        ⟦<Journal<D> as Keeper>⟧.moment ⟦<Journal<D> as Keeper>⟧.bytes_left
        ⟦<Journal<D> as Keeper>⟧.bytes_since B.since B.count B.past B.began result.0 }
    ensures illegal { IfErr result.1
        (λ fault. (place : ℕ) → fault ≡ StoreFault.Illegal place
        → IsIllegalAt (⟦<Journal<D> as Keeper>⟧.told journal) program_limits place) }
    ensures cause { IfErr result.1
        (λ fault. fault ≡ StoreFault.Fault
        → Rose (⟦<Journal<D> as Keeper>⟧.faults journal)
        (⟦<Journal<D> as Keeper>⟧.faults result.0)) }
    ensures level { MatchResult result.1
        (λ _. ⟦<Journal<D> as Keeper>⟧.faults result.0 ≡ ⟦<Journal<D> as Keeper>⟧.faults journal)
        (λ fault. fault ≢ StoreFault.Fault
        → ⟦<Journal<D> as Keeper>⟧.faults result.0 ≡ ⟦<Journal<D> as Keeper>⟧.faults journal) }
{
    let still = Still::<B, Journal<D>>::new(journal);
    match Store::open(alloc, still, Limits::program()) {
        Ok(store) => {
            let place = store.counts().place;
            (store.into_keeper().into_inner(), Ok(place))
        }
        Err((still, fault)) => (still.into_inner(), Err(fault)),
    }
}

// How many entries the log of a disk's journal has, or why its catalogue isn't opened. The disk
// comes back with the bytes that it had; an empty one with those of a new journal.
fn place_on<D: Disk + Send>(alloc: Global, disk: D) -> (D, Result<u32, Unopened>)
    ensures place { IfOk result.1
        (λ place. (o : Opened) × (book : Book) × (place ≡ book.state.place)
        × (payloads : List (List ℕ)) × Begins (D.told disk) payloads o book
        × IfSome (D.told result.0) (IsJournalOf payloads)) }
    ensures bytes { IfOk result.1 (λ _. Told (D.told disk) (D.told result.0) IsOpenedAs) }
    ensures durable { IfOk result.1 (λ _. Only (D.told result.0) (D.may_leave result.0)) }
    ensures images { IfSome (D.told disk)
        (SparesOnly D.may_leave D.moment D.left_since disk result.0) }
    ensures reason { IfErr result.1 (λ why. IsReason (D.told disk) why) }
    ensures stands { StandsFor (D.told disk) (D.told result.0) }
    ensures looked { MatchResult result.1
        (λ _. IsLookedAt D.told D.may_leave D.moment D.left_since disk result.0)
        (λ why. why ≢ Unopened.Fault
        → IsLookedAt D.told D.may_leave D.moment D.left_since disk result.0) }
    ensures cause { IfErr result.1
        (λ why. why ≡ Unopened.Fault → Rose (D.faults disk) (D.faults result.0)) }
    ensures level { MatchResult result.1 (λ _. D.faults result.0 ≡ D.faults disk)
        (λ why. why ≢ Unopened.Fault → D.faults result.0 ≡ D.faults disk) }
{
    let journal = match Journal::open(alloc, disk) {
        Ok(journal) => journal,
        Err((disk, fault)) => return (disk, Err(Unopened::from(fault))),
    };
    let (journal, counted) = count_on::<Brand, D>(alloc, journal);
    let disk = journal.into_disk();
    match counted {
        Ok(place) => (disk, Ok(place)),
        Err(fault) => (disk, Err(Unopened::from(fault))),
    }
}

// The line of the journal of a disk, once its catalogue was opened and it is one of format 2; or
// why there is none. The disk comes back. It is said what a crash might have left of it since it
// was given here.
fn line_on<D: Disk + Send>(alloc: Global, disk: D) -> (D, Result<String, Unopened>)
    requires fresh { D.faults disk ≡ 0 }
    ensures line { IfOk result.1
        (λ line. (book : Book) × (string_bytes line ≡ migrated_line book.state.place)
        × Migrates (D.told disk) (D.told result.0)
        (images_of D.may_leave D.moment D.left_since disk result.0) book) }
    ensures reason { IfErr result.1 (λ why. IsReason (D.told disk) why) }
    ensures stands { IfErr result.1 (λ _. StandsFor (D.told disk) (D.told result.0)) }
    ensures spared { IfErr result.1
        (λ _. Spared (D.told disk) (D.told result.0)
        (images_of D.may_leave D.moment D.left_since disk result.0)) }
    ensures unspoiled { IfErr result.1
        (λ why. why ≢ Unopened.Fault → Unspoiled (D.told disk) (D.told result.0)
        (images_of D.may_leave D.moment D.left_since disk result.0)) }
    ensures cause { IfErr result.1 (λ why. why ≡ Unopened.Fault → Rose 0 (D.faults result.0)) }
    ensures level { MatchResult result.1 (λ _. D.faults result.0 ≡ 0)
        (λ why. why ≢ Unopened.Fault → D.faults result.0 ≡ 0) }
{
    let (disk, counted) = place_on(alloc, disk);
    let place = match counted {
        Ok(place) => place,
        Err(why) => return (disk, Err(why)),
    };
    let Ok(line) = migrated_line(alloc, place) else {
        return (disk, Err(Unopened::NoMemory));
    };
    let (disk, renewed) = renew(alloc, disk);
    match renewed {
        Ok(()) => (disk, Ok(line)),
        Err(why) => (disk, Err(why)),
    }
}

/// Opens the journal, makes it one of format 2, and tells so with how many entries its log has.
pub(crate) fn migrate<O: Disks, K: Sink>(
    alloc: Global,
    path: &str,
    disks: &mut O,
    sink: &mut K,
) -> Status
    ensures migrated { MigratesKnown
        (DisksFell (O.refuses disks.old path.now) O.D.faults (O.at_path disks.new path.now)
        (O.faults disks.old) (O.faults disks.new)) (O.faults disks.new ≡ O.faults disks.old)
        (K.held sink.old) result (K.held sink.new) (K.faults sink.old) (K.faults sink.new)
        (told_at O.D.told (O.at_path disks.old path.now))
        (told_at O.D.told (O.at_path disks.new path.now))
        (images_at O.D.may_leave O.D.moment O.D.left_since (O.at_path disks.old path.now)
        (O.at_path disks.new path.now)) }
    ensures taken { result ≢ Status.Usage }
    ensures unread { result ≢ Status.ReadFault }
    ensures unheard { result ≢ Status.ListenerFault }
    ensures write { result ≡ Status.WriteFault → Rose (K.faults sink.old) (K.faults sink.new) }
    ensures sink_stays { IsTrue (tells_all result) → K.faults sink.new ≡ K.faults sink.old }
    ensures disks_stay { IsTrue (spares_disks result) → O.faults disks.new ≡ O.faults disks.old }
    ensures disk { result ≡ Status.DiskFault
        → DisksFell (O.refuses disks.old path.now) O.D.faults (O.at_path disks.new path.now)
        (O.faults disks.old) (O.faults disks.new) }
    ensures back { IsBack (O.at_path disks.old path.now) (O.at_path disks.new path.now) }
    ensures others { OthersStay path.now (O.at_path disks.old) (O.at_path disks.new) }
{
    let Ok(disk) = disks.open(path) else {
        return refuse(alloc, Unopened::Fault, sink);
    };
    let (disk, line) = line_on(alloc, disk);
    disks.back(path, disk);
    match line {
        Ok(line) => tell_line(line.as_str(), sink),
        Err(why) => refuse(alloc, why, sink),
    }
}
