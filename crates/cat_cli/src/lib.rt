//! The program. `run` does all that the program does, over disks, a source, a sink, a clock and a
//! listener. `script` answers the requests of the source one after another on the catalogue of a
//! journal: what it writes is the rendered replies of the catalogue to the requests in the bytes
//! that it reads, and the journal has the entries of what they changed, of which a crash at any
//! moment leaves a front. `serve` answers the requests of a listener's connections, by several
//! workers at once, on passes of one desk: at the end the journal has one legal log, of which each
//! session's pass had seen a beginning. `gc` removes the contents that nothing keeps under a
//! policy: the journal has one sweep more, that of the catalogue as it was opened, at the one
//! reading of the clock, and the line has its reply. `check` writes the line of the catalogue,
//! `migrate` makes a journal of an old format a newer one by one byte, and `drill` writes the line
//! of the catalogue that a seed makes.
#![tactic(auto)]

mod checking;
mod collecting;
mod journal;
mod migrating;
mod program;
mod scripting;
mod serving;
mod status;
mod still;
mod telling;
mod unopened;

pub use cat_words::{address_of, words_of};
pub use program::run;
pub use status::Status;
pub use telling::tell_no_memory;
