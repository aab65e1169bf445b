//! The words that the program is called with. The command line is `clap`'s; a number is 1 to 20
//! digits within its range. `asked_of` gives the command exactly where the words are one, want of
//! memory aside, and prints nothing.
#![tactic(auto)]

mod asked;
mod handed;
mod line;
mod number;

pub use asked::{Asked, address_of, asked_of};
pub use handed::words_of;
pub use line::WordsFault;
