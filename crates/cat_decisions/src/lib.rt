//! What calls that change the catalogue come to, decided on a catalogue that is only read: a
//! refusal, a reply, or a change with its reply and the call as it is logged. What is decided is
//! the step of the model. A call that opens a draft is opened in one turn; what it makes of its
//! branch's head, a commit's verdict or the plans of a merge or of a transplant, is built outside
//! any turn, on a view of that turn's catalogue, which stays as it is; and it is decided in a later
//! turn. What was built depends on the branch by its head alone: it is what would be built on each
//! later catalogue in which the branch has that head. Contents that plans set may be gone by then:
//! the call is refused with their keys, and with the place at which its draft was opened.
#![tactic(auto)]

pub mod building;
pub mod call;
mod changing;
mod commit;
mod counting;
pub mod deciding;
pub mod decision;
mod differing;
pub mod drafts;
mod gathering;
pub mod given;
mod judging;
mod logged;
mod merge;
pub mod opening;
mod ops;
mod preparing;
pub mod reference;
mod referring;
mod settling;
mod transplant;
