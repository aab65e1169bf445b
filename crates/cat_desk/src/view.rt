//! What a pass knows. No value of it is made.
use std::marker::Model;

/// What a pass knows of its desk. It exists in contracts alone, which see it as a record.
pub struct View {
    nothing: (),
}

impl Model for View {
    ghost use Rattle.cat_desk.specs.Sight.{View as Sight, blank, Idle};

    ghost Value = { Sight };

    ghost view = { λ _. blank Idle };
}
