//! Collections of contents that nothing keeps, on a store that callers share at a desk. A
//! collection opens a sweep in one turn, and its last turn settles the sweep, which removes the
//! contents that nothing kept since its opening. The code marks between turns what the sweep's roots
//! keep, and asks for what was made and named meanwhile, in up to four rounds of a turn each.
//! Whatever it answers, the sweep is closed. Each answer has its cause in what the pass has then
//! seen; and on the only pass of a desk, where nothing is open, it is that of the model's sweep on
//! the pass's book, after which nothing is open either.
#![tactic(auto)]

mod collecting;
mod marking;
mod rounds;
mod turns;

pub use collecting::collect;
