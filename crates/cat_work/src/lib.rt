//! Calls on a store that callers share at a desk, each on its pass. A call that opens a draft opens
//! it in one turn, and settles it in a later one what it makes of its branch's head: where the head
//! has moved it tries again, in as many attempts as the caller allows. The code builds between the
//! turns. Each answer has its cause in what the pass has then seen; and on the only pass of a desk
//! it is that of the model's call on the pass's book.
#![tactic(auto)]

mod alone;
mod attempts;
mod calls;
mod checkpointing;
mod finish;
mod reading;
mod referring;
mod trying;
mod turns;

pub use alone::{hold, release};
pub use calls::{call, commit, merge, transplant};
pub use checkpointing::checkpoint;
pub use reading::read;
pub use referring::refer;
