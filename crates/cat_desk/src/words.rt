//! The words of a desk's table.
ghost use Rattle.std.specs.Prelude.{◌≡◌, ◌<◌, ◌≤◌, ◌∷◌, replicate};

/// The word with the place after the value's log.
pub(crate) const COUNT: usize = 0;

/// The word with the next ticket.
pub(crate) const TICKET: usize = 1;

/// The word with the ticket that is served.
pub(crate) const SERVING: usize = 2;

/// How many bells there are, one a word behind these. A caller waits at its ticket's, so that
/// passing a turn on wakes whoever has the next ticket and, with no more callers than bells, nobody
/// else.
const BELLS: u64 = 64;

/// The words of a desk whose log ends at this place, and whose first ticket is drawn and served.
pub(crate) fn words_of(count: u64) -> [u64; 67]
    ensures { result ≡ count ∷ 1 ∷ replicate 65 0 }
{
    let mut words = [0; 67];
    words[COUNT] = count;
    words[TICKET] = 1;
    words
}

/// The word that is a ticket's bell.
pub(crate) fn bell_of(ticket: u64) -> usize
    ensures { (3 ≤ result) × (result < 67) }
{
    3 + (ticket % BELLS) as usize
}
