//! What comes between a call's building and its settling.
ghost use Rattle.std.specs.Prelude.{◌≡◌, List, []};
ghost use Rattle.cat_desk.specs.Pass.{HasNoTurn, DeskId};

use crate::pass::Pass;

/// It is asked before each attempt of a call to change the value, while the call has no turn.
pub trait Gate {
    /// What the gate needs of itself, such as that a pass of its own has no turn.
    ghost ready: { Self → Type 0 };

    /// The desks on which the gate takes turns of its own.
    ghost desks: { Self → List DeskId };

    /// Comes before the attempt of that number, which is 1 for the first. The pass is the call's.
    fn between(&mut self, pass: &Pass, attempt: u32)
        requires turn { HasNoTurn pass.now }
        requires ready { ready self.old }
        ensures ready { ready self.new }
        ensures desks { desks self.new ≡ desks self.old };
}

/// The program's gate: it does nothing.
#[derive(Drop)]
pub struct NoGate {}

impl Gate for NoGate {
    ghost ready = { λ _. Unit {0} };

    ghost desks = { λ _. [] };

    fn between(&mut self, _pass: &Pass, _attempt: u32) {}
}
