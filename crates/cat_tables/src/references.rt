//! Named references, by ascending names.

ghost use Rattle.std.specs.Prelude.{◌≡◌, [], None, IfOk, IsTrue, drop, length};
ghost use Rattle.std.specs.Option.{option_copied, option_map};
ghost use Rattle.cat_model.specs.Pages.{references_after};
ghost use Rattle.cat_model.specs.State.{moved_reference, reference_of, with_reference, without_reference};
ghost use Rattle.cat_ordered.specs.Maps.{first_of};
ghost use Rattle.cat_tables.specs.References.{all_named, names_ascend};

use cat_codes::fault::NoMemory;
use cat_codes::seq::Seq;
use cat_model::reference::Reference;
use cat_names::ref_name::RefName;
use cat_ordered::change::Change;
use cat_ordered::ordered_map::OrderedMap;
use cat_ordered::walk::Walk;
use std::alloc::{AllocError, Global};
use std::marker::Model;

/// References by ascending names. A change makes new ones, which share with these all but the path
/// to the reference that it meets. Contracts see the list.
#[derive(Drop)]
pub struct References {
    named: OrderedMap<RefName, Reference>,
}

impl Model for References {
    ghost use Rattle.std.specs.Prelude.{List, map};
    ghost use Rattle.cat_model.specs.declared.reference.Reference.{Reference};
    ghost use Rattle.cat_tables.specs.References.{AreNamed};

    ghost Value = { List Reference };

    ghost view = { λ r. map (λ x. x.1) r.named };

    ghost invariant = { λ r. AreNamed r.named };
}

impl Clone for References {
    ghost is_clone = { λ a b. b ≡ a };

    /// The same references, which share their memory. It takes memory for one list of owners: one
    /// for each 4,096 to 262,144 references.
    fn clone(&self) -> Result<References, AllocError> {
        Ok(References {
            named: self.named.clone()?,
        })
    }
}

/// A walk over references, names ascending. It is seen as the list of those that are still to
/// come, and takes no memory.
#[derive(Drop)]
pub struct ReferenceWalk<'a> {
    rest: Walk<'a, RefName, Reference>,
}

impl<'a> Model for ReferenceWalk<'a> {
    ghost use Rattle.std.specs.Prelude.{List, map};
    ghost use Rattle.cat_model.specs.declared.reference.Reference.{Reference};

    ghost Value = { List Reference };

    ghost view = { λ w. map (λ x. x.1) w.rest };
}

impl<'a> ReferenceWalk<'a> {
    /// The next reference, past which the walk goes.
    pub fn next(&mut self) -> Option<&'a Reference>
        ensures found { option_copied result ≡ first_of self.old }
        ensures left { self.new ≡ drop 1 self.old }
    {
        match self.rest.next() {
            None => None,
            Some(pair) => Some(pair.value()),
        }
    }
}

/// The changes that put references under their names.
fn all_put(alloc: Global, list: Vec<Reference>) -> Result<Vec<Change<RefName, Reference>>, NoMemory>
    ensures { IfOk result (λ changes. changes.items ≡ all_named list.items) }
{
    let mut changes = Vec::with_capacity(alloc, list.len())?;
    for reference in list {
        let name = reference.name.clone()?;
        changes.push(Change::put(alloc, name, reference)?)?;
    }
    Ok(changes)
}

impl References {
    /// No references. It takes no memory.
    pub fn new(alloc: Global) -> References
        ensures { result ≡ [] }
    {
        References {
            named: OrderedMap::new(alloc),
        }
    }

    /// References whose names ascend, each once.
    pub fn of(alloc: Global, list: Seq<Reference>) -> Result<References, NoMemory>
        requires { IsTrue (names_ascend list) }
        ensures { IfOk result (λ references. references ≡ list) }
    {
        let changes = all_put(alloc, list.into_vec())?;
        Ok(References {
            named: OrderedMap::new(alloc).with_changes(alloc, changes.as_slice())?,
        })
    }

    /// What holds of all references: names ascend, each once.
    pub fn known(&self)
        ensures { IsTrue (names_ascend self.now) }
    {
        self.named.known();
    }

    /// How many references there are.
    pub fn len(&self) -> usize
        ensures { result ≡ length self.now }
    {
        self.named.len()
    }

    /// The reference of a name.
    pub fn get(&self, name: &RefName) -> Option<&Reference>
        ensures { option_copied result ≡ reference_of self.now name.now }
    {
        self.named.get(name)
    }

    /// A walk over all references, names ascending.
    pub fn walk(&self) -> ReferenceWalk<'_>
        ensures { result ≡ self.now }
    {
        ReferenceWalk {
            rest: self.named.walk(),
        }
    }

    /// A walk over the references whose names are above this one.
    fn walk_above(&self, name: &RefName) -> ReferenceWalk<'_>
        ensures { result ≡ references_after self.now (Some name.now) }
    {
        self.known();
        let mut rest = self.named.walk_from(name);
        if let Some(pair) = rest.peek() {
            if *pair.key() == *name {
                let _ = rest.next();
            }
        }
        ReferenceWalk { rest }
    }

    /// A walk over the references whose names are above this one, or over all.
    pub fn walk_after(&self, name: Option<&RefName>) -> ReferenceWalk<'_>
        ensures { result ≡ references_after self.now (option_map (λ n. n.now) name.entry) }
    {
        match name {
            None => self.walk(),
            Some(name) => self.walk_above(name),
        }
    }

    /// The references with one more, of a name that is not there.
    pub fn with(&self, alloc: Global, reference: Reference) -> Result<References, NoMemory>
        requires { reference_of self.now reference.name ≡ None }
        ensures { IfOk result (λ made. made ≡ with_reference self.now reference) }
    {
        let name = reference.name.clone()?;
        let change = Change::put(alloc, name, reference)?;
        Ok(References {
            named: self.named.with_changes(alloc, &[change])?,
        })
    }

    /// The references with the one of this name set to it, if there is one.
    pub fn with_moved(&self, alloc: Global, moved: Reference) -> Result<References, NoMemory>
        ensures { IfOk result (λ made. made ≡ moved_reference self.now moved) }
    {
        self.known();
        if self.get(&moved.name).is_none() {
            return Ok(self.clone()?);
        }
        let name = moved.name.clone()?;
        let change = Change::put(alloc, name, moved)?;
        Ok(References {
            named: self.named.with_changes(alloc, &[change])?,
        })
    }

    /// The references without the one of a name, if there is one.
    pub fn without(&self, alloc: Global, name: &RefName) -> Result<References, NoMemory>
        ensures { IfOk result (λ made. made ≡ without_reference self.now name.now) }
    {
        self.known();
        let name = name.clone()?;
        let change = Change::remove(alloc, name)?;
        Ok(References {
            named: self.named.with_changes(alloc, &[change])?,
        })
    }

    /// The references with one more, as by [`References::with`], in their own memory where no others
    /// share it.
    pub fn into_with(self, alloc: Global, reference: Reference) -> Result<References, NoMemory>
        requires { reference_of self reference.name ≡ None }
        ensures { IfOk result (λ made. made ≡ with_reference self reference) }
    {
        let name = reference.name.clone()?;
        let change = Change::put(alloc, name, reference)?;
        Ok(References {
            named: self.named.into_changes(alloc, &[change])?,
        })
    }

    /// The references with the one of this name set to it, as by [`References::with_moved`], in
    /// their own memory where no others share it.
    pub fn into_moved(self, alloc: Global, moved: Reference) -> Result<References, NoMemory>
        ensures { IfOk result (λ made. made ≡ moved_reference self moved) }
    {
        self.known();
        if self.get(&moved.name).is_none() {
            return Ok(self);
        }
        let name = moved.name.clone()?;
        let change = Change::put(alloc, name, moved)?;
        Ok(References {
            named: self.named.into_changes(alloc, &[change])?,
        })
    }

    /// The references without the one of a name, as by [`References::without`], in their own memory
    /// where no others share it.
    pub fn into_without(self, alloc: Global, name: &RefName) -> Result<References, NoMemory>
        ensures { IfOk result (λ made. made ≡ without_reference self name.now) }
    {
        self.known();
        let gone = name.clone()?;
        let change = Change::remove(alloc, gone)?;
        Ok(References {
            named: self.named.into_changes(alloc, &[change])?,
        })
    }
}
