//! Commits that a cutoff keeps.

ghost use Rattle.std.specs.Prelude.{◌≡◌};
ghost use Rattle.std.specs.Option.{option_map};
ghost use Rattle.cat_model.specs.Chain.{commit_of};
ghost use Rattle.cat_mark.specs.Marks.{if_kept};

use cat_graph::graph::Graph;
use cat_model::commit::Commit;
use cat_model::cutoff::Cutoff;

/// The parent of a commit, where it is a commit that the cutoff keeps at the index.
pub(crate) fn kept_parent<'a>(
    graph: &'a Graph,
    cutoff: &Cutoff,
    index: u64,
    commit: &Commit,
) -> Option<&'a Commit>
    ensures { option_map (λ c. c.now) result
        ≡ if_kept cutoff.now index (commit_of graph.now commit.now.parent) }
{
    match graph.get(&commit.parent) {
        None => None,
        Some(parent) if cutoff.keeps(index, parent.time) => Some(parent),
        Some(_) => None,
    }
}
