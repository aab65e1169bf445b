//! What a journal holds, in one line.

ghost use Rattle.std.specs.Prelude.{◌≡◌, ◌≢◌, IfErr, IfOk, IsTrue, MatchResult, string_bytes};
ghost use Rattle.cat_io.specs.Causes.{Rose};
ghost use Rattle.cat_io.specs.Places.{OthersStay};
ghost use Rattle.cat_cli.specs.Journals.{DisksFell, IsBack, StandsFor, told_at};
ghost use Rattle.cat_cli.specs.Lines.{check_line, counts_line};
ghost use Rattle.cat_cli.specs.Opening.{CountedKnown, IsReason};
ghost use Rattle.cat_cli.specs.Runs.{ChecksKnown, OpensStill, spares_disks, tells_all};
ghost use Rattle.cat_cli.specs.Surviving.{IsBegun, IsStoodOn, Spared, Unspoiled, Unwritten, images_at, images_of};
ghost use Rattle.cat_model.specs.Book.{Book};

use crate::journal::{disk_of, store_on};
use crate::status::Status;
use crate::still::Stood;
use crate::unopened::{Unopened, refuse};
use cat_codes::fault::NoMemory;
use cat_core::{Counts, Store};
use cat_http::write_all;
use cat_io::{Disk, Disks, Sink};
use cat_keeper::{Keeper, Since};
use std::alloc::{AllocError, Global};
use std::marker::{Brand, Send};

#[tactic(auto, unfolding(crate::specs::Lines::counts_line))]
fn counts_line(alloc: Global, counts: &Counts, head: &str) -> Result<String, AllocError>
    ensures { IfOk result
        (λ line. string_bytes line
        ≡ counts_line counts.now.place counts.now.references counts.now.commits
        counts.now.contents head.now) }
{
    let Counts {
        place,
        references,
        commits,
        contents,
        ..
    } = *counts;
    format!(in alloc;
        "entries {place} references {references} commits {commits} contents {contents} head {head}\n"
    )
}

// How much a store holds.
fn check_line<J: Keeper>(alloc: Global, store: &Store<J>) -> Result<String, NoMemory>
    ensures { IfOk result (λ line. string_bytes line ≡ check_line store.now.book) }
{
    let counts = store.counts();
    let head = hex::encode(alloc, counts.head.bytes.as_slice())?;
    Ok(counts_line(alloc, &counts, head.as_str())?)
}

/// Tells a line on a journal that was opened.
pub(crate) fn tell_line<K: Sink>(line: &str, sink: &mut K) -> Status
    ensures told { CountedKnown line.now (K.held sink.old) result (K.held sink.new)
        (K.faults sink.old) (K.faults sink.new) }
    ensures fault { result ≢ Status.DiskFault }
    ensures write { result ≡ Status.WriteFault → Rose (K.faults sink.old) (K.faults sink.new) }
    ensures stays { IsTrue (tells_all result) → K.faults sink.new ≡ K.faults sink.old }
    ensures taken { result ≢ Status.Usage }
    ensures unread { result ≢ Status.ReadFault }
    ensures unheard { result ≢ Status.ListenerFault }
{
    match write_all(sink, line.as_bytes()) {
        Ok(()) => Status::Done,
        Err(_) => Status::WriteFault,
    }
}

// The line of the journal of a disk, or why there is none. The disk comes back with the bytes that
// it had; an empty one maybe with those of a new journal, or where it failed, with no more bytes
// than these. It is watched what a crash might have left of it since it was given here.
fn line_on<B: Since + Send, T: Stood + Send, D: Disk + Send>(
    alloc: Global,
    disk: D,
) -> (D, Result<String, Unopened>)
    requires begun { IsBegun B.since B.had B.before (D.told disk) (D.moment disk)
        (D.may_leave disk) }
    requires stood { IsStoodOn T.since T.count T.past T.began T.shape (D.told disk)
        (D.moment disk) (D.may_leave disk) (D.left_since disk) }
    requires fresh { D.faults disk ≡ 0 }
    ensures line { IfOk result.1
        (λ line. (book : Book) × (string_bytes line ≡ check_line book)
        × OpensStill (D.told disk) (D.told result.0)
        (images_of D.may_leave D.moment D.left_since disk result.0) book) }
    ensures reason { IfErr result.1 (λ why. IsReason (D.told disk) why) }
    ensures stands { IfErr result.1 (λ _. StandsFor (D.told disk) (D.told result.0)) }
    ensures spared { IfErr result.1
        (λ _. Spared (D.told disk) (D.told result.0)
        (images_of D.may_leave D.moment D.left_since disk result.0)) }
    ensures unspoiled { IfErr result.1
        (λ why. why ≢ Unopened.Fault → Unspoiled (D.told disk) (D.told result.0)
        (images_of D.may_leave D.moment D.left_since disk result.0)) }
    ensures unwritten { IfErr result.1
        (λ _. Unwritten (D.told disk) (D.told result.0)
        (images_of D.may_leave D.moment D.left_since disk result.0)) }
    ensures cause { IfErr result.1 (λ why. why ≡ Unopened.Fault → Rose 0 (D.faults result.0)) }
    ensures level { MatchResult result.1 (λ _. D.faults result.0 ≡ 0)
        (λ why. why ≢ Unopened.Fault → D.faults result.0 ≡ 0) }
{
    match store_on::<B, T, D>(alloc, disk) {
        Ok(store) => {
            let line = check_line(alloc, &store);
            let disk = disk_of(store);
            match line {
                Ok(line) => (disk, Ok(line)),
                Err(_) => (disk, Err(Unopened::NoMemory)),
            }
        }
        Err((disk, why)) => (disk, Err(why)),
    }
}

/// Opens the journal and tells how much its catalogue holds.
pub(crate) fn check<O: Disks, K: Sink>(
    alloc: Global,
    path: &str,
    disks: &mut O,
    sink: &mut K,
) -> Status
    ensures checked { ChecksKnown
        (DisksFell (O.refuses disks.old path.now) O.D.faults (O.at_path disks.new path.now)
        (O.faults disks.old) (O.faults disks.new)) (O.faults disks.new ≡ O.faults disks.old)
        (K.held sink.old) result (K.held sink.new) (K.faults sink.old) (K.faults sink.new)
        (told_at O.D.told (O.at_path disks.old path.now))
        (told_at O.D.told (O.at_path disks.new path.now))
        (images_at O.D.may_leave O.D.moment O.D.left_since (O.at_path disks.old path.now)
        (O.at_path disks.new path.now)) }
    ensures taken { result ≢ Status.Usage }
    ensures unread { result ≢ Status.ReadFault }
    ensures unheard { result ≢ Status.ListenerFault }
    ensures write { result ≡ Status.WriteFault → Rose (K.faults sink.old) (K.faults sink.new) }
    ensures sink_stays { IsTrue (tells_all result) → K.faults sink.new ≡ K.faults sink.old }
    ensures disks_stay { IsTrue (spares_disks result) → O.faults disks.new ≡ O.faults disks.old }
    ensures disk { result ≡ Status.DiskFault
        → DisksFell (O.refuses disks.old path.now) O.D.faults (O.at_path disks.new path.now)
        (O.faults disks.old) (O.faults disks.new) }
    ensures back { IsBack (O.at_path disks.old path.now) (O.at_path disks.new path.now) }
    ensures others { OthersStay path.now (O.at_path disks.old) (O.at_path disks.new) }
{
    let Ok(disk) = disks.open(path) else {
        return refuse(alloc, Unopened::Fault, sink);
    };
    let (disk, line) = line_on::<Brand, Brand, O::D>(alloc, disk);
    disks.back(path, disk);
    match line {
        Ok(line) => tell_line(line.as_str(), sink),
        Err(why) => refuse(alloc, why, sink),
    }
}
