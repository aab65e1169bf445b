//! Making a journal of format 1 one of format 2.
ghost use Rattle.std.specs.Prelude.{ℕ, List, [], ◌∷◌, ◌≡◌, ◌≢◌, ◌<◌, None, length, IfErr, IfOk, IfSome, MatchResult, Ok};
ghost use Rattle.cat_io.specs.Causes.{Rose};
ghost use Rattle.cat_io.specs.Crashes.{put, Only, Told};
ghost use Rattle.cat_journal.specs.Frames.{new_journal, recovered};
ghost use Rattle.cat_journal.specs.Journals.{journal_disk};
ghost use Rattle.cat_journal.specs.Reading.{IsFaultOf, IsMigrated, MigratesOnly, OnlyReads};

use crate::fault::OpenFault;
use crate::journal::Journal;
use cat_io::Disk;
use cat_keeper::Keeper;
use std::alloc::Global;
use std::marker::Send;

/// Opens the journal on a disk and makes it one of format 2, by the format's gate alone. At each
/// moment a crash leaves what one might have left before, or a journal that stands for the same.
/// Where it is refused and no call of the disk failed, the bytes are as they were.
pub fn migrate<D: Disk + Send>(alloc: Global, disk: D) -> Result<Journal<D>, (D, OpenFault)>
    ensures format { IfOk result (λ j. ⟦<Journal<D> as Keeper>⟧.form j ≡ 2) }
    ensures payloads { IfOk result
        (λ j. Told (D.told disk) (⟦<Journal<D> as Keeper>⟧.told j)
        (λ bytes ps. recovered bytes ≡ Ok ps)) }
    ensures bytes { IfOk result
        (λ j. Told (D.told disk) (D.told (journal_disk j)) IsMigrated) }
    ensures up { IfOk result (λ j. ⟦<Journal<D> as Keeper>⟧.down j ≡ None) }
    ensures durable { IfOk result
        (λ j. Only (D.told (journal_disk j)) (D.may_leave (journal_disk j))) }
    ensures fault { IfErr result
        (λ e. Told (D.told disk) (D.told e.0) (λ before after. IsFaultOf before e.1)) }
    ensures stands { IfErr result
        (λ e. Told (D.told disk) (D.told e.0)
        (λ before after. 0 < length before → recovered after ≡ recovered before)) }
    ensures unspoiled { IfErr result
        (λ e. e.1 ≢ OpenFault.Fault → Told (D.told disk) (D.told e.0) (λ b a. a ≡ b)) }
    ensures unwritten { IfErr result
        (λ e. e.1 ≢ OpenFault.Fault → IfSome (D.told disk) (λ bytes. 0 < length bytes
        → OnlyReads D.told D.may_leave D.moment D.left_since disk e.0)) }
    ensures images { IfSome (D.told disk) (λ bytes. MatchResult result
        (λ j. MigratesOnly D.may_leave D.moment D.left_since disk (journal_disk j) bytes)
        (λ e. MigratesOnly D.may_leave D.moment D.left_since disk e.0 bytes)) }
    ensures cause { IfErr result
        (λ e. e.1 ≡ OpenFault.Fault → Rose (D.faults disk) (D.faults e.0)) }
    ensures stays { MatchResult result
        (λ j. ⟦<Journal<D> as Keeper>⟧.faults j ≡ D.faults disk)
        (λ e. e.1 ≢ OpenFault.Fault → D.faults e.0 ≡ D.faults disk) }
{
    match Journal::open(alloc, disk) {
        Ok(journal) => {
            if journal.format == 2 {
                Ok(journal)
            } else {
                journal.open_format()
            }
        }
        Err(refused) => Err(refused),
    }
}
