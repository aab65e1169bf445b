//! The rule of the desk's table, and what each step on it tells.
use crate::view::View;
use atomic_table::{Join, Play, Split, TableRule};
use cat_model::logged::Logged;

/// The rule of the desk's table: word 0 is the count, 1 the next ticket, 2 the ticket that is
/// served, the others are bells, and the one slot is where the value is at home.
pub struct Turns;

impl<V: Logged> TableRule<Option<V>, View, V> for Turns {
    ghost use Rattle.cat_desk.specs.Rule.{Kept, newcomer};

    ghost holds = { Kept V.log V.opened V.legal V.mark V.left_open };

    ghost first = { newcomer V.log V.opened V.mark V.left_open };
}

/// A ticket is drawn.
pub(crate) struct Draw;

impl<V: Logged> Play<Option<V>, View> for Draw {
    ghost use Rattle.cat_desk.specs.Rule.{drew};

    ghost then = { λ st m r n. drew m r n };
}

/// The serving word is looked at.
pub(crate) struct Call;

impl<V: Logged> Play<Option<V>, View> for Call {
    ghost use Rattle.cat_desk.specs.Rule.{called};

    ghost then = { λ st m r n. called m r n };
}

/// The count is read in the turn, and the slot taken.
pub(crate) struct Take;

impl<V: Logged> Play<Option<V>, View> for Take {
    ghost use Rattle.cat_desk.specs.Rule.{took};

    ghost then = { λ st m r n. took V.log V.opened V.legal V.mark V.left_open m n };
}

/// The count is stored, and the slot given back.
pub(crate) struct Give;

impl<V: Logged> Play<Option<V>, View> for Give {
    ghost use Rattle.cat_desk.specs.Rule.{gave};

    ghost then = { λ st m r n. gave V.log V.opened V.mark V.left_open m n };
}

/// The turn is passed on.
pub(crate) struct Serve;

impl<V: Logged> Play<Option<V>, View> for Serve {
    ghost use Rattle.cat_desk.specs.Rule.{served};

    ghost then = { λ st m r n. served m n };
}

/// A bell is looked at, or rung.
pub(crate) struct Bell;

impl<V: Logged> Play<Option<V>, View> for Bell {
    ghost use Rattle.cat_desk.specs.Rule.{still};

    ghost then = { λ st m r n. still m n };
}

/// The count is read outside a turn.
pub(crate) struct Meet;

impl<V: Logged> Play<Option<V>, View> for Meet {
    ghost use Rattle.cat_desk.specs.Rule.{met};

    ghost then = { λ st m r n. met m r n };
}

/// The rule is looked at for the number that is given next.
pub(crate) struct Look;

impl<V: Logged> Play<Option<V>, View> for Look {
    ghost use Rattle.cat_desk.specs.Rule.{unnumbered};

    ghost then = { λ st m r n. unnumbered m n };
}

/// The rule is looked at for what a pass has seen that was made of two.
pub(crate) struct Compare;

impl<V: Logged> Play<Option<V>, View> for Compare {
    ghost use Rattle.cat_desk.specs.Rule.{compared};

    ghost then = { λ st m r n. compared m n };
}

/// A pass is split off.
pub(crate) struct Apart;

impl Split<View> for Apart {
    ghost use Rattle.cat_desk.specs.Rule.{splitting, split_off};

    ghost left = { splitting };

    ghost right = { split_off };
}

/// A pass is joined in.
pub(crate) struct Together;

impl Join<View> for Together {
    ghost use Rattle.cat_desk.specs.Rule.{joined, nobody};

    ghost both = { joined };

    ghost spent = { nobody };
}
