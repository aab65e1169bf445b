//! A store on a desk with one pass: nobody else changes it, and it comes back as the pass has seen
//! it.

ghost use Rattle.std.specs.Prelude.{◌≡◌, ◌<◌, ◌-◌, IfErr, IfOk, reverse};
ghost use Rattle.cat_core.specs.Stored.{opened_of};
ghost use Rattle.cat_desk.specs.Log.{Since};
ghost use Rattle.cat_desk.specs.Marks.{IsGiven};
ghost use Rattle.cat_desk.specs.Pass.{all_left_by, mark_of, number_of, seen, spare_of};
ghost use Rattle.cat_model.specs.Drafts.{nothing_open};
ghost use Rattle.cat_work.specs.Passes.{IsAlone, IsReady, book_of};

use cat_codes::fault::NoMemory;
use cat_core::Store;
use cat_desk::{Desk, Pass};
use cat_keeper::Keeper;
use std::alloc::Global;

/// A desk over a store, and its only pass, whose number is 1; 4,294,967,294 more may be split off.
/// Where memory runs out the store comes back.
pub fn hold<K: Keeper>(
    alloc: Global,
    store: Store<K>,
) -> Result<(Desk<Store<K>>, Pass), (Store<K>, NoMemory)>
    requires { store.left_open ≡ nothing_open }
    ensures ready { IfOk result (λ t. IsReady t.0 t.1 × IsAlone t.1 × (number_of t.1 ≡ 1)) }
    ensures spare { IfOk result (λ t. spare_of t.1 ≡ 4294967294) }
    ensures book { IfOk result (λ t. book_of t.0 t.1 ≡ store.book) }
    ensures begun { IfOk result
        (λ t. (t.0.begun ≡ reverse store.book.log) × (seen t.1 ≡ t.0.begun)) }
    ensures mark { IfOk result
        (λ t. (mark_of t.1 ≡ store.mark) × (all_left_by t.1 ≡ nothing_open)) }
    ensures opened { IfOk result (λ t. t.0.opened ≡ opened_of store) }
    ensures marked { IfOk result (λ t. t.0.marked ≡ store.mark) }
    ensures refused { IfErr result (λ e. e.0 ≡ store) }
{
    store.history();
    Desk::new(alloc, store)
}

/// The store, once its desk is ended. While numbers are left, what was added is of callers with
/// numbers that were given, and so is a fault that is new in the mark.
pub fn release<K: Keeper>(desk: Desk<Store<K>>, pass: Pass) -> Store<K>
    requires ready { IsReady desk pass }
    requires alone { IsAlone pass }
    ensures book { result.book ≡ book_of desk pass }
    ensures mark { (result.mark ≡ mark_of pass) × (result.left_open ≡ all_left_by pass) }
    ensures opened { opened_of result ≡ desk.opened }
    ensures given { 0 < spare_of pass
        → Since (4294967296 - spare_of pass) desk.begun (seen pass)
        × IsGiven (4294967296 - spare_of pass) desk.marked (mark_of pass) }
{
    match desk.close(pass) {
        Ok(store) => {
            store.history();
            store
        }
        Err(_) => unreachable!(),
    }
}
