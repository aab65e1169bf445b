//! Roots of what an open sweep has to keep.

ghost use Rattle.std.specs.Prelude.{◌≡◌, ◌++◌, IfOk, OnOk, map};
ghost use Rattle.std.specs.List.{flat_map};
ghost use Rattle.cat_core.specs.Noting.{names_of_drafts};
ghost use Rattle.cat_core.specs.Stored.{draft_held};
ghost use Rattle.cat_core.specs.Sweeps.{alone, first_roots, head_at, head_made, head_taken, if_head, roots_since, roots_taken};

use crate::replay::name_in;
use crate::tickets::OpenDraft;
use cat_codes::fault::NoMemory;
use cat_codes::seq::Seq;
use cat_mark::Roots;
use cat_model::cutoff::{Cutoff, Resolved};
use cat_model::log_entry::{Action, LogEntry};
use cat_model::reference::Reference;
use cat_names::hash::Hash;
use cat_tables::references::References;
use std::alloc::Global;

/// The commits that drafts name.
pub(crate) fn commits_named(alloc: Global, drafts: &[OpenDraft]) -> Result<Vec<Hash>, NoMemory>
    ensures { IfOk result
        (λ hashes. hashes.items ≡ (names_of_drafts (map draft_held drafts.now)).commits) }
{
    let mut hashes = Vec::new(alloc);
    for draft in drafts {
        hashes.extend_from_slice(draft.commits.as_slice())?;
    }
    Ok(hashes)
}

/// The contents that drafts name.
pub(crate) fn contents_named(alloc: Global, drafts: &[OpenDraft]) -> Result<Vec<Hash>, NoMemory>
    ensures { IfOk result
        (λ hashes. hashes.items ≡ (names_of_drafts (map draft_held drafts.now)).contents) }
{
    let mut hashes = Vec::new(alloc);
    for draft in drafts {
        hashes.extend_from_slice(draft.contents.as_slice())?;
    }
    Ok(hashes)
}

/// The head that an entry left, with the cutoff for the reference that has it.
fn head_made(policy: &Resolved, entry: &LogEntry) -> Option<(Hash, Cutoff)>
    ensures { result ≡ head_made policy.now entry.now }
{
    match (&entry.action, entry.head) {
        (Action::Call(command), Some(head)) => {
            Some((head, *policy.cutoff_for(name_in(command))))
        }
        _ => None,
    }
}

/// The head of a reference that was taken, if there is one, with its cutoff.
fn head_taken(policy: &Resolved, taken: &Option<Reference>) -> Option<(Hash, Cutoff)>
    ensures { result ≡ head_taken policy.now taken.now }
{
    match taken {
        None => None,
        Some(reference) => Some((reference.head, *policy.cutoff_for(&reference.name))),
    }
}

/// Adds the heads of references, each with its cutoff.
fn add_references(
    heads: &mut Vec<(Hash, Cutoff)>,
    policy: &Resolved,
    references: &References,
) -> Result<(), NoMemory>
    ensures { OnOk result
        (heads.new.items ≡ heads.old.items ++ map (head_at policy.now) references.now) }
{
    let mut rest = references.walk();
    while let Some(reference) = rest.next() {
        heads.push((reference.head, *policy.cutoff_for(&reference.name)))?;
    }
    Ok(())
}

/// Adds a head, if there is one.
fn add_head(heads: &mut Vec<(Hash, Cutoff)>, head: Option<(Hash, Cutoff)>) -> Result<(), NoMemory>
    ensures { OnOk result (heads.new.items ≡ heads.old.items ++ if_head head) }
{
    if let Some(head) = head {
        heads.push(head)?;
    }
    Ok(())
}

/// Adds the heads that entries left, each with the cutoff for its reference.
fn add_made(
    heads: &mut Vec<(Hash, Cutoff)>,
    policy: &Resolved,
    entries: &[LogEntry],
) -> Result<(), NoMemory>
    ensures { OnOk result
        (heads.new.items
        ≡ heads.old.items ++ flat_map (λ e. if_head (head_made policy.now e)) entries.now) }
{
    for entry in entries {
        add_head(heads, head_made(policy, entry))?;
    }
    Ok(())
}

/// Adds commits, each alone.
fn add_commits(heads: &mut Vec<(Hash, Cutoff)>, commits: &[Hash]) -> Result<(), NoMemory>
    ensures { OnOk result (heads.new.items ≡ heads.old.items ++ map alone commits.now) }
{
    for commit in commits {
        heads.push((*commit, Cutoff::Commits(1)))?;
    }
    Ok(())
}

/// The roots of these heads and contents.
fn roots_of(alloc: Global, heads: Vec<(Hash, Cutoff)>, contents: &[Hash]) -> Result<Roots, NoMemory>
    ensures { IfOk result
        (λ roots. roots ≡ record { heads = heads.items; hashes = contents.now }) }
{
    let mut hashes = Vec::new(alloc);
    hashes.extend_from_slice(contents)?;
    Ok(Roots {
        heads: Seq::from_vec(heads)?,
        hashes: Seq::from_vec(hashes)?,
    })
}

/// The roots of what is live from references and of what these names keep.
pub(crate) fn first_roots(
    alloc: Global,
    policy: &Resolved,
    references: &References,
    commits: &[Hash],
    contents: &[Hash],
) -> Result<Roots, NoMemory>
    ensures { IfOk result
        (λ roots. roots
        ≡ first_roots policy.now references.now
        (record { commits = commits.now; contents = contents.now })) }
{
    let mut heads = Vec::new(alloc);
    add_references(&mut heads, policy, references)?;
    add_commits(&mut heads, commits)?;
    roots_of(alloc, heads, contents)
}

/// The roots of what entries made live and of what these names keep.
pub(crate) fn roots_since(
    alloc: Global,
    policy: &Resolved,
    entries: &[LogEntry],
    commits: &[Hash],
    contents: &[Hash],
) -> Result<Roots, NoMemory>
    ensures { IfOk result
        (λ roots. roots
        ≡ roots_since policy.now entries.now
        (record { commits = commits.now; contents = contents.now })) }
{
    let mut heads = Vec::new(alloc);
    add_made(&mut heads, policy, entries)?;
    add_commits(&mut heads, commits)?;
    roots_of(alloc, heads, contents)
}

/// Adds the heads of references that were taken, each with its cutoff.
fn add_taken(
    heads: &mut Vec<(Hash, Cutoff)>,
    policy: &Resolved,
    taken: &[Option<Reference>],
) -> Result<(), NoMemory>
    ensures { OnOk result
        (heads.new.items ≡ heads.old.items ++ flat_map (λ t. if_head (head_taken policy.now t)) taken.now) }
{
    for reference in taken {
        add_head(heads, head_taken(policy, reference))?;
    }
    Ok(())
}

/// The roots of what is live from references, from those that were taken, and of what these names
/// keep.
pub(crate) fn roots_taken(
    alloc: Global,
    policy: &Resolved,
    references: &References,
    taken: &[Option<Reference>],
    commits: &[Hash],
    contents: &[Hash],
) -> Result<Roots, NoMemory>
    ensures { IfOk result
        (λ roots. roots
        ≡ roots_taken policy.now references.now taken.now
        (record { commits = commits.now; contents = contents.now })) }
{
    let mut heads = Vec::new(alloc);
    add_references(&mut heads, policy, references)?;
    add_taken(&mut heads, policy, taken)?;
    add_commits(&mut heads, commits)?;
    roots_of(alloc, heads, contents)
}
