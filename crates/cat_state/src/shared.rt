//! A catalogue that views share.

ghost use Rattle.std.specs.Prelude.{◌≡◌, ◌≤◌, ◌<◌, ◌+◌, ◌∷◌, [], None, IfErr, IfOk, IsTrue, OnErr, OnOk};
ghost use Rattle.sha2.specs.Sha256.{sha256};
ghost use Rattle.cat_frames.specs.Entries.{is_logged};
ghost use Rattle.cat_model.specs.State.{first_state};
ghost use Rattle.cat_state.specs.Changing.{MayBeMade, applied};
ghost use Rattle.cat_state.specs.Sweeping.{spares_at, sweeping};
ghost use Rattle.cat_tables.specs.References.{heads_pass};
ghost use Rattle.cat_state.specs.Kept.{IsUnrefused, Keeps};
ghost use Rattle.cat_state.specs.Views.{catalogue_in};

use crate::catalogue::Catalogue;
use crate::change::Change;
use crate::keeping::append;
use crate::unmade::Unmade;
use crate::view::View;
use cat_codes::fault::NoMemory;
use cat_keeper::Keeper;
use cat_model::limits::Limits;
use cat_model::log_entry::LogEntry;
use cat_names::hash::Hash;
use std::alloc::Global;
use std::marker::Model;
use std::mem;
use std::sync::Arc;

/// A catalogue that views may share. A change puts another in its place, and a view's stays as it
/// is.
#[derive(Drop)]
pub struct SharedCatalogue {
    catalogue: Arc<Catalogue>,
}

impl Model for SharedCatalogue {
    ghost use Rattle.cat_model.specs.State.{State};
    ghost use Rattle.cat_state.specs.Views.{catalogue_in};

    ghost Value = { State };

    ghost view = { λ s. catalogue_in s.catalogue };
}

/// The catalogue, in memory that can be shared.
fn sharing(alloc: Global, catalogue: Catalogue) -> Result<Arc<Catalogue>, NoMemory>
    ensures { IfOk result (λ shared. catalogue_in shared ≡ catalogue) }
{
    Ok(Arc::new(alloc, catalogue)?)
}

/// The catalogue after a change, which is changed in its own memory where nothing shares it.
fn renewed(alloc: Global, old: Arc<Catalogue>, change: Change) -> Result<Arc<Catalogue>, NoMemory>
    requires { MayBeMade (catalogue_in old) change }
    ensures { IfOk result (λ next. catalogue_in next ≡ applied (catalogue_in old) change) }
{
    match Arc::try_unwrap(old) {
        Ok(own) => {
            let next = own.into_after(alloc, change)?;
            sharing(alloc, next)
        }
        Err(shared) => {
            let next = shared.after(alloc, change)?;
            sharing(alloc, next)
        }
    }
}

impl SharedCatalogue {
    /// An empty catalogue: the branch `main` without a commit.
    pub fn new(alloc: Global, limits: Limits) -> Result<SharedCatalogue, NoMemory>
        requires log { limits.log ≤ 4294967295 }
        requires commits { limits.commits ≤ 4294967295 }
        ensures { IfOk result (λ shared. shared ≡ first_state sha256 limits) }
    {
        let catalogue = Catalogue::new(alloc, limits)?;
        Ok(SharedCatalogue {
            catalogue: sharing(alloc, catalogue)?,
        })
    }

    /// A catalogue that is shared from here on.
    pub fn of(alloc: Global, catalogue: Catalogue) -> Result<SharedCatalogue, NoMemory>
        ensures { IfOk result (λ shared. shared ≡ catalogue) }
    {
        Ok(SharedCatalogue {
            catalogue: sharing(alloc, catalogue)?,
        })
    }

    /// The catalogue, to be read.
    pub fn get(&self) -> &Catalogue
        ensures { result.now ≡ self.now }
    {
        &self.catalogue
    }

    /// A view of the catalogue as it is now.
    pub fn view(&self) -> Result<View, NoMemory>
        ensures { IfOk result (λ view. view ≡ self.now) }
    {
        let shared = Arc::try_clone(&self.catalogue)?;
        Ok(View::new(shared))
    }

    /// The catalogue after a change, in memory that can be shared.
    fn next(&self, alloc: Global, change: Change) -> Result<Arc<Catalogue>, NoMemory>
        requires { MayBeMade self.now change }
        ensures { IfOk result (λ next. catalogue_in next ≡ applied self.now change) }
    {
        let next = self.get().after(alloc, change)?;
        sharing(alloc, next)
    }

    /// Has the keeper keep an entry, and then puts another catalogue in the place of this one; or
    /// changes nothing.
    fn keep<K: Keeper>(
        &mut self,
        alloc: Global,
        keeper: &mut K,
        entry: &LogEntry,
        next: Arc<Catalogue>,
    ) -> Result<(), Unmade>
        requires logged { IsTrue (is_logged sha256 entry.now) }
        requires up { K.down keeper.old ≡ None }
        requires few { K.kept keeper.old < 4294967295 }
        ensures ok { OnOk result (self.new ≡ catalogue_in next) }
        ensures err { OnErr result (self.new ≡ self.old) }
        ensures unrefused { IfErr result IsUnrefused }
        ensures more { OnOk result (K.kept keeper.new ≡ K.kept keeper.old + 1) }
        ensures as_many { OnErr result (K.kept keeper.new ≡ K.kept keeper.old) }
        ensures first { K.start keeper.new ≡ K.start keeper.old }
        ensures keeps { Keeps K.Keeper keeper.old keeper.new (entry.now ∷ []) result }
    {
        append(alloc, keeper, entry)?;
        self.catalogue = next;
        Ok(())
    }

    /// Makes the catalogue after a change, has the keeper keep the entry of the change, and then
    /// puts the new catalogue in the place of the old one, which can't fail and takes no memory; or
    /// changes nothing. Views keep the old one.
    pub fn make<K: Keeper>(
        &mut self,
        alloc: Global,
        keeper: &mut K,
        entry: &LogEntry,
        change: Change,
    ) -> Result<(), Unmade>
        requires may { MayBeMade self.old change }
        requires logged { IsTrue (is_logged sha256 entry.now) }
        requires up { K.down keeper.old ≡ None }
        requires few { K.kept keeper.old < 4294967295 }
        ensures ok { OnOk result (self.new ≡ applied self.old change) }
        ensures err { OnErr result (self.new ≡ self.old) }
        ensures unrefused { IfErr result IsUnrefused }
        ensures more { OnOk result (K.kept keeper.new ≡ K.kept keeper.old + 1) }
        ensures as_many { OnErr result (K.kept keeper.new ≡ K.kept keeper.old) }
        ensures first { K.start keeper.new ≡ K.start keeper.old }
        ensures keeps { Keeps K.Keeper keeper.old keeper.new (entry.now ∷ []) result }
    {
        let next = self.next(alloc, change)?;
        self.keep(alloc, keeper, entry, next)
    }

    /// The catalogue after a sweep, in memory that can be shared.
    fn next_swept(&self, alloc: Global, hashes: &[Hash]) -> Result<Arc<Catalogue>, NoMemory>
        requires log { self.now.place < self.now.limits.log }
        requires spared { IsTrue
            (heads_pass (spares_at self.now.commits hashes.now) self.now.references) }
        ensures { IfOk result (λ next. catalogue_in next ≡ sweeping self.now hashes.now) }
    {
        let next = self.get().swept(alloc, hashes)?;
        sharing(alloc, next)
    }

    /// Makes the catalogue after a sweep, without the contents of these hashes, has the keeper keep
    /// the entry of the sweep, and then puts the new catalogue in the place of the old one, which
    /// can't fail and takes no memory; or changes nothing. Views keep the old one.
    pub fn make_sweep<K: Keeper>(
        &mut self,
        alloc: Global,
        keeper: &mut K,
        entry: &LogEntry,
        hashes: &[Hash],
    ) -> Result<(), Unmade>
        requires log { self.old.place < self.old.limits.log }
        requires spared { IsTrue
            (heads_pass (spares_at self.old.commits hashes.now) self.old.references) }
        requires logged { IsTrue (is_logged sha256 entry.now) }
        requires up { K.down keeper.old ≡ None }
        requires few { K.kept keeper.old < 4294967295 }
        ensures ok { OnOk result (self.new ≡ sweeping self.old hashes.now) }
        ensures err { OnErr result (self.new ≡ self.old) }
        ensures unrefused { IfErr result IsUnrefused }
        ensures more { OnOk result (K.kept keeper.new ≡ K.kept keeper.old + 1) }
        ensures as_many { OnErr result (K.kept keeper.new ≡ K.kept keeper.old) }
        ensures first { K.start keeper.new ≡ K.start keeper.old }
        ensures keeps { Keeps K.Keeper keeper.old keeper.new (entry.now ∷ []) result }
    {
        let next = self.next_swept(alloc, hashes)?;
        self.keep(alloc, keeper, entry, next)
    }

    /// Puts the catalogue after a sweep in the place of the old one: without the contents of these
    /// hashes; or changes nothing. Views keep the old one.
    pub fn apply_sweep(&mut self, alloc: Global, hashes: &[Hash]) -> Result<(), NoMemory>
        requires log { self.old.place < self.old.limits.log }
        requires spared { IsTrue
            (heads_pass (spares_at self.old.commits hashes.now) self.old.references) }
        ensures ok { OnOk result (self.new ≡ sweeping self.old hashes.now) }
        ensures err { OnErr result (self.new ≡ self.old) }
    {
        self.catalogue = self.next_swept(alloc, hashes)?;
        Ok(())
    }

    /// Puts the catalogue after a change in the place of the old one, which is changed in its own
    /// memory where nothing shares it. Of what is left where it fails nothing is said. Views keep
    /// the old one.
    pub fn renew(
        &mut self,
        alloc: Global,
        spare: &SharedCatalogue,
        change: Change,
    ) -> Result<(), NoMemory>
        requires { MayBeMade self.old change }
        ensures { OnOk result (self.new ≡ applied self.old change) }
    {
        let other = Arc::try_clone(&spare.catalogue)?;
        let old = mem::replace(&mut self.catalogue, other);
        self.catalogue = renewed(alloc, old, change)?;
        Ok(())
    }
}
