//! Plans that change something.

ghost use Rattle.std.specs.Prelude.{◌≡◌, IfOk};
ghost use Rattle.cat_decisions.specs.Drafts.{changing};

use crate::counting::has_changes;
use cat_codes::fault::NoMemory;
use cat_merge::plan::Planned;
use std::alloc::Global;

/// The plans that make a commit.
pub(crate) fn with_changes(alloc: Global, planned: Vec<Planned>) -> Result<Vec<Planned>, NoMemory>
    ensures { IfOk result (λ made. made.items ≡ changing planned.items) }
{
    let mut made = Vec::new(alloc);
    for one in planned {
        if has_changes(&one) {
            made.push(one)?;
        } else {
            drop(one);
        }
    }
    Ok(made)
}
