//! Pages of the chain of a commit.

ghost use Rattle.std.specs.Prelude.{◌≡◌, IfOk, drop, length, take};
ghost use Rattle.std.specs.Option.{option_map};
ghost use Rattle.cat_graph.specs.Linked.{values};
ghost use Rattle.cat_model.specs.Pages;
ghost use Rattle.cat_model.specs.Pages.{first, history};

use crate::page::Page;
use crate::token::Token;
use cat_codes::fault::NoMemory;
use cat_codes::seq::Seq;
use cat_graph::graph::Graph;
use cat_model::commit::Commit;
use cat_names::hash::Hash;
use std::alloc::Global;

// How many commits there are up to this one, itself counted, or to the end.
fn len_up_to(commits: &[(&Hash, &Commit)], last: &Hash) -> usize
    ensures { result ≡ length (Pages.up_to (values commits.now) last.now) }
{
    let mut len = 0;
    for (hash, _) in commits {
        len += 1;
        if **hash == *last {
            return len;
        }
    }
    len
}

// How many commits there are up to the last that is asked for.
fn len_until(commits: &[(&Hash, &Commit)], until: &Option<Hash>) -> usize
    ensures { result ≡ length (Pages.until (values commits.now) until.now) }
{
    match until {
        None => commits.len(),
        Some(last) => len_up_to(commits, last),
    }
}

// The token of the commit behind so many, where there is one.
fn following(commits: &[(&Hash, &Commit)], shown: usize) -> Option<Token>
    ensures { result
        ≡ option_map (λ x. Token.History x.0) (first (drop shown (values commits.now))) }
{
    match commits.get(shown) {
        None => None,
        Some((hash, _)) => Some(Token::History(**hash)),
    }
}

/// At most `limit` commits of the chain of a commit, from itself to the last that is asked for. The
/// token names the commit behind them, where there is one.
pub fn history_page<'a>(
    alloc: Global,
    graph: &'a Graph,
    from: &'a Hash,
    until: &Option<Hash>,
    limit: u32,
) -> Result<Page<(&'a Hash, &'a Commit)>, NoMemory>
    ensures items { let left = history graph.now from.now until.now in
        IfOk result (λ page. values page.items ≡ take limit left) }
    ensures token { let left = history graph.now from.now until.now in
        IfOk result
        (λ page. page.token ≡ option_map (λ x. Token.History x.0) (first (drop limit left))) }
{
    let shown = limit as usize;
    let mut commits = graph.chain(alloc, from, shown + 1)?;
    let len = len_until(commits.as_slice(), until);
    commits.truncate(len);
    let token = following(commits.as_slice(), shown);
    commits.truncate(shown);
    Ok(Page {
        items: Seq::from_vec(commits)?,
        token,
    })
}
