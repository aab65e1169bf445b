//! One ordered map, whose versions share their parts. A map is seen as the list of its keys and
//! values, keys ascending, and never changes: changes make a new map, which shares with the old one
//! all but the blocks that they meet and the path to these. A map that is given up for the one after
//! a change is changed in its own memory, as far as no other map shares it. Pairs stand in blocks of
//! 16 to 64, under runs of 16 to 64 pieces each, which are made of at most 32; where there is only
//! one block or run it may be smaller. Each call answers what its definition says of the list; a
//! look-up tells a count of at most `2 * log2(n + 1)` comparisons of keys, and a change one of at
//! most 512 pairs copied.
#![tactic(auto)]

mod block;
pub mod change;
mod growing;
mod next;
pub mod ordered_map;
mod owned;
pub mod pair;
mod piece;
mod pieces;
mod run;
pub mod seek;
pub mod walk;
