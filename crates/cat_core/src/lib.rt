//! The store: a ledger over any keeper of its log, which has each entry before the change of the
//! entry is seen, and the drafts that are open. A call that opens a draft is opened in one turn;
//! what it makes of its branch's head is built on a view, which needs no turn; and a later turn
//! settles it, if the branch has that head still, or drops it. A sweep is opened in one turn too;
//! its caller marks what its roots keep on a view, which needs no turn either, and is given more
//! roots as entries are made; a later turn settles it, which removes the contents that nothing kept
//! since its opening, or drops it. What an open draft names, and was there at some moment since its
//! opening, stays until the draft is closed. Each call answers what the model's call on the book
//! does and leaves the book that it leaves; or is refused for want of memory or for a fault of the
//! keeper, which leave state and log as they were. From a fault on the store only reads, and closes
//! what is open. It is opened over a keeper of any payloads: each entry behind the base is executed
//! again, from the base's state, and the first that has no reading or may not follow is told by its
//! place. Its state is made the keeper's base by a checkpoint, from which the log in memory goes
//! on.
#![tactic(auto)]

mod checkpointing;
mod closing;
mod counting;
mod draft;
mod drafting;
mod judging;
mod ledger;
mod marking;
mod opening;
mod referring;
mod replay;
mod rooting;
mod store;
mod sweeping;
mod telling;
mod tickets;

pub use cat_decisions::building::Built;
pub use cat_state::counts::Counts;
pub use cat_state::view::View;
pub use draft::{Draft, Settled};
pub use opening::StoreFault;
pub use store::Store;
pub use sweeping::Sweep;
