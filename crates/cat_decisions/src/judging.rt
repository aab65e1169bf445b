//! What the judgement of operations comes to.

ghost use Rattle.std.specs.Prelude.{◌<◌, IfOk, IsTrue, OnOk, length};
ghost use Rattle.cat_model.specs.Commits.{or_conflicts};
ghost use Rattle.cat_model.specs.Namespaces.{is_well_formed};
ghost use Rattle.cat_rules.specs.Rules.{GivesWellFormed, verdict};
ghost use Rattle.cat_state.specs.Giving.{Gives, SaysAs};
ghost use Rattle.cat_decisions.specs.Putting.{tested};

use crate::ops::puts;
use cat_keymap::key_map::KeyMap;
use cat_model::op::Op;
use cat_model::reference::Reference;
use cat_model::refusal::Refusal;
use cat_rules::judging::Judged;
use cat_state::catalogue::Catalogue;
use cat_state::failure::Failure;

/// The map after the operations, unless they conflict.
fn map_after(judged: Judged) -> Result<KeyMap, Refusal>
    ensures exact { SaysAs (λ map. map) result (or_conflicts (verdict judged)) }
    ensures well_formed { GivesWellFormed judged
        → IfOk result (λ map. IsTrue (is_well_formed map)) }
{
    match judged {
        Judged::Map(map) => Ok(map),
        Judged::Conflicts(conflicts) => Err(Refusal::Conflicts(conflicts)),
    }
}

/// The map after the operations on a branch, where there is room for them and they don't conflict.
pub(crate) fn tested_map(
    catalogue: &Catalogue,
    branch: &Reference,
    ops: &[Op],
    judged: Judged,
) -> Result<KeyMap, Failure>
    ensures test { Gives result (tested catalogue.now branch.now ops.now (verdict judged)) }
    ensures place { OnOk result (catalogue.now.place < 4294967295) }
    ensures commits { OnOk result (length catalogue.now.commits < 4294967295) }
    ensures well_formed { GivesWellFormed judged
        → IfOk result (λ map. IsTrue (is_well_formed map)) }
{
    let head = catalogue.map_at(&branch.head)?;
    catalogue.needs_commit_room(&head, puts(ops))?;
    let map = map_after(judged)?;
    Ok(map)
}
