//! A gate that holds calls, for tests.
ghost use Rattle.std.specs.Prelude.{◌≡◌, ◌≤◌};
ghost use Rattle.cat_model.specs.Turns.{place_after};
ghost use Rattle.cat_desk.specs.Pass.{IsFree, Keeps, seen, known};

use crate::desk::Desk;
use crate::gate::Gate;
use crate::pass::Pass;
use cat_model::logged::Logged;
use std::sync::Wait;

/// It holds a call until the desk's log has come to a place, for at most so many turns, which it
/// takes on a pass of its own. It must be ended.
pub struct Hold<'a, R, V: Logged> {
    rt: &'a R,
    desk: &'a Desk<V>,
    pass: Pass,
    entries: u32,
    turns: u32,
    late: bool,
}

impl<'a, R, V: Logged> Hold<'a, R, V> {
    ghost use Rattle.std.specs.Prelude.{◌≡◌, not, IsFalse};
    ghost use Rattle.cat_desk.specs.Pass.{IsFree};
    ghost use Rattle.cat_desk.specs.Hold.{own_pass, own_desk, awaits, looks_in, was_late};

    /// A gate over a pass of the desk.
    pub fn new(rt: &'a R, desk: &'a Desk<V>, pass: Pass, entries: u32, turns: u32) -> Hold<'a, R, V>
        requires { IsFree desk.now pass }
        ensures of { (own_desk result ≡ desk.now) × (own_pass result ≡ pass) }
        ensures bounds { (awaits result ≡ entries)
            × (looks_in result ≡ turns)
            × IsFalse (was_late result) }
    {
        Hold {
            rt,
            desk,
            pass,
            entries,
            turns,
            late: false,
        }
    }

    /// Gives the pass back, and tells whether every call was held until the log was there.
    pub fn end(self) -> (Pass, bool)
        ensures { (result.0 ≡ own_pass self.entry) × (result.1 ≡ not (was_late self.entry)) }
    {
        let Hold {
            rt: _,
            desk: _,
            pass,
            entries: _,
            turns: _,
            late,
        } = self;
        (pass, !late)
    }
}

impl<'a, R: Wait, V: Logged> Gate for Hold<'a, R, V> {
    ghost use Rattle.std.specs.Prelude.{◌≡◌, ◌<◌, ◌≤◌, ◌⊎◌, [], ◌∷◌, IsTrue, IsFalse};
    ghost use Rattle.cat_model.specs.Turns.{place_after};
    ghost use Rattle.cat_desk.specs.Pass.{IsFree, seen};
    ghost use Rattle.cat_desk.specs.Hold.{own_pass, own_desk, awaits, looks_in, was_late};

    ghost ready = { λ h. IsFree (own_desk h) (own_pass h) };

    ghost desks = { λ h. own_desk h ∷ [] };

    /// It is late where even its last turn found an earlier place.
    fn between(&mut self, _pass: &Pass, _attempt: u32)
        requires ready { IsFree (own_desk self.old) (own_pass self.old) }
        ensures ready { IsFree (own_desk self.new) (own_pass self.new) }
        ensures desks { own_desk self.new ≡ own_desk self.old }
        ensures bounds { (awaits self.new ≡ awaits self.old)
            × (looks_in self.new ≡ looks_in self.old) }
        ensures held { IsFalse (was_late self.new)
            → IsFalse (was_late self.old)
            × (awaits self.new
            ≤ place_after (own_desk self.new).opened (seen (own_pass self.new))) }
        ensures late { IsTrue (was_late self.new)
            → IsTrue (was_late self.old)
            ⊎ (looks_in self.new ≡ 0)
            ⊎ (place_after (own_desk self.new).opened (seen (own_pass self.new)) < awaits self.new) }
    {
        for _ in 0..self.turns {
            if count(self.rt, self.desk, &mut self.pass) >= self.entries {
                return;
            }
        }
        self.late = true;
    }
}

/// The place after the log, in a turn that does nothing else.
fn count<R: Wait, V: Logged>(rt: &R, desk: &Desk<V>, pass: &mut Pass) -> u32
    requires { IsFree desk.now pass.old }
    ensures kept { Keeps desk.now pass.old pass.new }
    ensures count { (result ≡ place_after desk.now.opened (seen pass.new))
        × (known pass.old ≤ result) }
{
    let held = desk.enter(rt, pass);
    let count = held.value.count();
    desk.leave(held, pass);
    count
}
