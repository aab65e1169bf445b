//! The hashes of the contents that are visible at the commits that cutoffs keep. A set of marks
//! tells of each hash whether it is in it, and marking a head adds what is live from it and
//! nothing else. That costs the map at the oldest kept commit and one look-up for each change of
//! the kept commits after it. Of many heads what was walked for one isn't walked again for another:
//! a head whose parent is among them costs its changes alone. Many heads are shared out among
//! workers, and what is marked is what one of them would mark.
#![tactic(auto)]

mod chains;
mod hashes;
mod marks;
mod roots;
mod sharing;
mod walked;
mod walking;

pub use marks::Marks;
pub use roots::Roots;
