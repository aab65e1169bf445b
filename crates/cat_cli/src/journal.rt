//! The journal of a run: a store over it, which is watched while it is held, and its disk.

ghost use Rattle.std.specs.Prelude.{⊤, ◌≡◌, ◌≢◌, ◌≤◌, None, IfErr, IfOk, IfSome, MatchResult};
ghost use Rattle.cat_model.specs.Drafts.{nothing_open};
ghost use Rattle.cat_io.specs.Causes.{Rose};
ghost use Rattle.cat_io.specs.Crashes.{Told};
ghost use Rattle.cat_journal.specs.Frames.{form_gate, format_by};
ghost use Rattle.cat_journal.specs.Journals.{journal_disk};
ghost use Rattle.cat_keeper.specs.Bases.{bases_in};
ghost use Rattle.cat_cli.specs.Journals.{StandsFor, opened_format};
ghost use Rattle.cat_cli.specs.Opening.{IsReason, IsStored};
ghost use Rattle.cat_cli.specs.Surviving.{IsBegun, IsStoodOn, KeepsThrough, Spared, Unspoiled, Unwritten, images_of};
ghost use Rattle.cat_cli.specs.Unadded.{IsStill};

use crate::still::{Still, Stood};
use crate::unopened::Unopened;
use cat_core::Store;
use cat_io::Disk;
use cat_journal::Journal;
use cat_keeper::{Keeper, Since, Watched};
use cat_model::limits::Limits;
use std::alloc::Global;
use std::marker::Send;

/// The store of a journal's catalogue, over the journal. It is watched what a crash might have left
/// of the disk since it was given here, and that the bytes stay while nothing is added. Where no
/// store is opened the disk comes back with the bytes that it had; an empty one maybe with those of
/// a new journal, or where it failed, with no more bytes than these.
pub(crate) fn store_on<B: Since + Send, T: Stood + Send, D: Disk + Send>(
    alloc: Global,
    disk: D,
) -> Result<Store<Still<T, Watched<B, Journal<D>>>>, (D, Unopened)>
    requires begun { IsBegun B.since B.had B.before (D.told disk) (D.moment disk)
        (D.may_leave disk) }
    requires stood { IsStoodOn T.since T.count T.past T.began T.shape (D.told disk)
        (D.moment disk) (D.may_leave disk) (D.left_since disk) }
    ensures stored { IfOk result
        (λ store. IsStored (D.told disk) store.opened store.book
        (⟦<Journal<D> as Keeper>⟧.told store.keeper)
        (⟦<Journal<D> as Keeper>⟧.down store.keeper)) }
    ensures fresh { IfOk result
        (λ store. (store.left_open ≡ nothing_open)
        × (store.mark.fault ≡ None)
        × (store.opened.faults ≡ ⟦<Journal<D> as Keeper>⟧.faults store.keeper)) }
    ensures bases { IfOk result
        (λ store. store.mark.bases
        ≡ bases_in (⟦<Journal<D> as Keeper>⟧.told store.keeper)) }
    ensures formed { IfOk result
        (λ store. IfSome (D.told disk) (λ bytes. store.mark.format ≡ opened_format bytes)) }
    ensures based { IfOk result (λ store. store.mark.base ≡ store.opened.state.place) }
    ensures drafted { IfOk result (λ store. store.mark.draft ≡ store.book.draft) }
    ensures unswept { IfOk result (λ store. store.mark.sweep ≡ None) }
    ensures reason { IfErr result (λ e. IsReason (D.told disk) e.1) }
    ensures stands { IfErr result (λ e. StandsFor (D.told disk) (D.told e.0)) }
    ensures spared { IfErr result
        (λ e. Spared (D.told disk) (D.told e.0)
        (images_of D.may_leave D.moment D.left_since disk e.0)) }
    ensures unspoiled { IfErr result
        (λ e. e.1 ≢ Unopened.Fault → Unspoiled (D.told disk) (D.told e.0)
        (images_of D.may_leave D.moment D.left_since disk e.0)) }
    ensures unwritten { IfErr result
        (λ e. Unwritten (D.told disk) (D.told e.0)
        (images_of D.may_leave D.moment D.left_since disk e.0)) }
    ensures cause { IfErr result (λ e. e.1 ≡ Unopened.Fault → Rose (D.faults disk) (D.faults e.0)) }
    ensures level { MatchResult result
        (λ store. ⟦<Journal<D> as Keeper>⟧.faults store.keeper ≡ D.faults disk)
        (λ e. e.1 ≢ Unopened.Fault → D.faults e.0 ≡ D.faults disk) }
{
    match Journal::open(alloc, disk) {
        Ok(journal) => {
            let watched = Watched::<B, Journal<D>>::new(journal);
            let still = Still::<T, Watched<B, Journal<D>>>::new(watched);
            match Store::open(alloc, still, Limits::program()) {
                Ok(store) => Ok(store),
                Err((still, fault)) => {
                    let watched = still.into_inner();
                    let journal = watched.into_inner();
                    Err((journal.into_disk(), Unopened::from(fault)))
                }
            }
        }
        Err((disk, fault)) => Err((disk, Unopened::from(fault))),
    }
}

/// The disk of a store. It keeps the log, and so does what a crash leaves of it. Where nothing was
/// added its bytes are those that the journal was opened with, and its format is the one that it was
/// opened in.
pub(crate) fn disk_of<B: Since + Send, T: Stood + Send, D: Disk + Send>(
    store: Store<Still<T, Watched<B, Journal<D>>>>,
) -> D
    ensures disk { result ≡ journal_disk store.keeper }
    ensures still { IsStill ⟦<Journal<D> as Keeper>⟧.told ⟦<Journal<D> as Keeper>⟧.in_flight
        ⟦<Journal<D> as Keeper>⟧.moment ⟦<Journal<D> as Keeper>⟧.bytes_left
        ⟦<Journal<D> as Keeper>⟧.bytes_since T.since T.count T.past T.began store.keeper }
    ensures format { IfSome (D.told result) (λ bytes. T.shape (format_by (form_gate bytes))) }
    ensures kept { KeepsThrough B.since B.had B.before (D.may_leave result)
        (D.left_since result) ⟦<Journal<D> as Keeper>⟧.told
        ⟦<Journal<D> as Keeper>⟧.in_flight store.keeper store.opened store.book
        (D.told result) }
    ensures tells { Told (⟦<Journal<D> as Keeper>⟧.told store.keeper) (D.told result)
        (λ payloads bytes. ⊤) }
    ensures later { IfSome (D.told result) (λ _. B.since ≤ D.moment result) }
    ensures faults { D.faults result ≡ ⟦<Journal<D> as Keeper>⟧.faults store.keeper }
{
    store.history();
    store.log_is_kept();
    let still = store.into_keeper();
    let watched = still.into_inner();
    let journal = watched.into_inner();
    journal.into_disk()
}
