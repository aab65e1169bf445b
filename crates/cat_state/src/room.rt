//! Room for what a change adds.

ghost use Rattle.std.specs.Prelude.{◌≡◌, ◌<◌, ◌≤◌, ◌+◌, List, length, OnOk};
ghost use Rattle.cat_model.specs.Commits.{needs_commit_room};
ghost use Rattle.cat_model.specs.Merges.{Planned, all_set, commits_made, needs_planned_room};
ghost use Rattle.cat_model.specs.Moves.{needs_log};
ghost use Rattle.cat_model.specs.Refusing as refusing;
ghost use Rattle.cat_model.specs.declared.limits.Quantity.TheVariants as quantities;

use crate::catalogue::Catalogue;
use cat_keymap::key_map::KeyMap;
use cat_model::limits::Quantity;
use cat_model::refusal::Refusal;

/// There is room for one more.
fn needs_room(count: u64, limit: u64, which: Quantity) -> Result<(), Refusal>
    ensures test { result ≡ refusing.needs_room count limit which }
    ensures below { OnOk result (count < limit) }
{
    if count < limit {
        Ok(())
    } else {
        Err(Refusal::Limit {
            which,
            number: limit,
        })
    }
}

/// There is room for so many more.
#[tactic(auto, using(std::proofs::lemmas::Bool::Decides::nat_tests))]
fn needs_at_most(count: u64, more: u64, limit: u64, which: Quantity) -> Result<(), Refusal>
    ensures test { result ≡ refusing.needs_at_most (count + more) limit which }
    ensures within { OnOk result (count + more ≤ limit) }
{
    if count <= limit && more <= limit - count {
        Ok(())
    } else {
        Err(Refusal::Limit {
            which,
            number: limit,
        })
    }
}

impl Catalogue {
    fn reference_count(&self) -> u64
        ensures { result ≡ length self.now.references }
    {
        self.references().len() as u64
    }

    fn commit_count(&self) -> u64
        ensures { result ≡ length self.now.commits }
    {
        self.commits().len() as u64
    }

    fn content_count(&self) -> u64
        ensures { result ≡ length self.now.present }
    {
        self.contents().len() as u64
    }

    /// There is room for an entry.
    pub fn needs_log(&self) -> Result<(), Refusal>
        ensures test { result ≡ needs_log self.now }
        ensures place { OnOk result (self.now.place < 4294967295) }
    {
        needs_room(u64::from(self.place()), self.limits().log, Quantity::Log)
    }

    /// There is room for a reference.
    pub fn needs_reference_room(&self) -> Result<(), Refusal>
        ensures { result
            ≡ refusing.needs_room (length self.now.references) self.now.limits.references
            quantities.References }
    {
        needs_room(
            self.reference_count(),
            self.limits().references,
            Quantity::References,
        )
    }

    /// There is room for an entry, for a commit, and for so many PUTs on the branch's map.
    #[tactic(auto, unfolding(cat_model::specs::Commits::needs_commit_room))]
    pub fn needs_commit_room(&self, head: &KeyMap, puts: u64) -> Result<(), Refusal>
        ensures test { result ≡ needs_commit_room self.now head.now puts }
        ensures place { OnOk result (self.now.place < 4294967295) }
        ensures commits { OnOk result (length self.now.commits < 4294967295) }
    {
        let limits = self.limits();
        needs_room(u64::from(self.place()), limits.log, Quantity::Log)?;
        needs_room(self.commit_count(), limits.commits, Quantity::Commits)?;
        needs_at_most(head.len() as u64, puts, limits.keys, Quantity::Keys)?;
        needs_at_most(
            self.content_count(),
            puts,
            limits.contents,
            Quantity::Contents,
        )
    }
    /// There is room for an entry, for so many commits, and for so many keys that they set on the
    /// branch's map.
    #[tactic(auto, unfolding(cat_model::specs::Merges::needs_planned_room))]
    pub fn needs_planned_room(&self, head: &KeyMap, commits: u64, puts: u64) -> Result<(), Refusal>
        ensures test { (planned : List Planned) → length (commits_made planned) ≡ commits
            → length (all_set planned) ≡ puts
            → result ≡ needs_planned_room self.now head.now planned }
        ensures place { OnOk result (self.now.place < 4294967295) }
        ensures commits { OnOk result (length self.now.commits + commits ≤ 4294967295) }
        ensures log { OnOk result (self.now.place < self.now.limits.log) }
        ensures most { OnOk result (length self.now.commits + commits ≤ self.now.limits.commits) }
        ensures keys { OnOk result (length head.now + puts ≤ self.now.limits.keys) }
    {
        let limits = self.limits();
        needs_room(u64::from(self.place()), limits.log, Quantity::Log)?;
        needs_at_most(
            self.commit_count(),
            commits,
            limits.commits,
            Quantity::Commits,
        )?;
        needs_at_most(head.len() as u64, puts, limits.keys, Quantity::Keys)
    }
}
