//! The catalogue after a change.

ghost use Rattle.std.specs.Prelude.{◌≡◌, ◌<◌, IfOk, IsTrue};
ghost use Rattle.cat_tables.specs.References.{heads_pass};
ghost use Rattle.cat_state.specs.Changed.{HasNewName};
ghost use Rattle.cat_state.specs.Changing.{MayBeMade, applied, changed_references};
ghost use Rattle.cat_state.specs.Sweeping.{spares_at, sweeping};

use crate::additions::Additions;
use crate::catalogue::Catalogue;
use crate::change::{Change, ReferenceChange};
use cat_codes::fault::NoMemory;
use cat_names::hash::Hash;
use cat_tables::references::References;
use std::alloc::Global;

/// The references after one of them is made, moved or removed.
fn references_with(
    alloc: Global,
    references: &References,
    change: ReferenceChange,
) -> Result<References, NoMemory>
    requires { HasNewName references.now change }
    ensures { IfOk result (λ made. made ≡ changed_references references.now change) }
{
    match change {
        ReferenceChange::Made(reference) => references.with(alloc, reference),
        ReferenceChange::Moved(reference) => references.with_moved(alloc, reference),
        ReferenceChange::Removed(name) => references.without(alloc, &name),
    }
}

/// The references after one of them is made, moved or removed, in their own memory where no others
/// share it.
fn into_references_with(
    alloc: Global,
    references: References,
    change: ReferenceChange,
) -> Result<References, NoMemory>
    requires { HasNewName references change }
    ensures { IfOk result (λ made. made ≡ changed_references references change) }
{
    match change {
        ReferenceChange::Made(reference) => references.into_with(alloc, reference),
        ReferenceChange::Moved(reference) => references.into_moved(alloc, reference),
        ReferenceChange::Removed(name) => references.into_without(alloc, &name),
    }
}

impl Catalogue {
    /// The catalogue after a sweep, at the next place: without the contents of these hashes. It
    /// shares with this one all else.
    pub fn swept(&self, alloc: Global, hashes: &[Hash]) -> Result<Catalogue, NoMemory>
        requires log { self.now.place < self.now.limits.log }
        requires spared { IsTrue
            (heads_pass (spares_at self.now.commits hashes.now) self.now.references) }
        ensures { IfOk result (λ catalogue. catalogue ≡ sweeping self.now hashes.now) }
    {
        Ok(Catalogue {
            place: self.place + 1,
            references: self.references.clone()?,
            commits: self.commits.clone()?,
            maps: self.maps.clone()?,
            contents: self.contents.without(alloc, hashes)?,
            limits: self.limits,
        })
    }

    /// The catalogue after a change, at the next place. It shares with this one all that the change
    /// doesn't meet.
    pub fn after(&self, alloc: Global, change: Change) -> Result<Catalogue, NoMemory>
        requires { MayBeMade self.now change }
        ensures { IfOk result (λ catalogue. catalogue ≡ applied self.now change) }
    {
        let Change {
            additions,
            reference,
        } = change;
        let Additions {
            contents,
            commits,
            maps,
        } = additions;
        Ok(Catalogue {
            place: self.place + 1,
            references: references_with(alloc, &self.references, reference)?,
            commits: self.commits.with(alloc, commits)?,
            maps: self.maps.with(alloc, maps)?,
            contents: self.contents.with(alloc, contents)?,
            limits: self.limits,
        })
    }

    /// The catalogue after a change, as by [`Catalogue::after`]. What the change meets is changed in
    /// its own memory where no other catalogue shares it.
    pub fn into_after(self, alloc: Global, change: Change) -> Result<Catalogue, NoMemory>
        requires { MayBeMade self change }
        ensures { IfOk result (λ catalogue. catalogue ≡ applied self change) }
    {
        let Change {
            additions,
            reference,
        } = change;
        let Additions {
            contents,
            commits,
            maps,
        } = additions;
        Ok(Catalogue {
            place: self.place + 1,
            references: into_references_with(alloc, self.references, reference)?,
            commits: self.commits.into_with(alloc, commits)?,
            maps: self.maps.into_with(alloc, maps)?,
            contents: self.contents.into_with(alloc, contents)?,
            limits: self.limits,
        })
    }
}
