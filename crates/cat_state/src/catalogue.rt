//! The catalogue.

ghost use Rattle.std.specs.Prelude.{◌≡◌, ◌≤◌, IfOk, IsTrue, length, true};
ghost use Rattle.sha2.specs.Sha256.{sha256};
ghost use Rattle.cat_names.specs.declared.hash.Hash.{Hash};
ghost use Rattle.cat_model.specs.Chain.{entries, generation};
ghost use Rattle.cat_model.specs.Namespaces.{is_well_formed};
ghost use Rattle.cat_model.specs.State.{first_state};
ghost use Rattle.cat_frames.specs.Standing.{has_main, may_start};
ghost use Rattle.cat_tables.specs.References.{heads_pass};
ghost use Rattle.cat_graph.specs.Linked.{AreLinked, is_known};
ghost use Rattle.cat_keymap.specs.MapsAt.{map_at};
ghost use Rattle.cat_state.specs.Keeping.{AreKept, found_map, is_held_at};

use crate::copies::copy_map;
use cat_codes::fault::NoMemory;
use cat_graph::graph::Graph;
use cat_keymap::key_map::KeyMap;
use cat_keymap::maps::Maps;
use cat_model::content::Content;
use cat_model::limits::Limits;
use cat_model::reference::{Kind, Reference};
use cat_names::hash::Hash;
use cat_names::ref_name::RefName;
use cat_tables::references::References;
use cat_tables::table::Table;
use std::alloc::{AllocError, Global};
use std::marker::Model;

/// A catalogue in memory, at one place of its log. It is never changed: the one after a change
/// shares with it all that the change doesn't meet.
#[derive(Drop)]
pub struct Catalogue {
    pub(crate) place: u32,
    pub(crate) references: References,
    pub(crate) commits: Graph,
    pub(crate) maps: Maps,
    pub(crate) contents: Table<Content>,
    pub(crate) limits: Limits,
}

impl Model for Catalogue {
    ghost use Rattle.cat_model.specs.State.{State};

    ghost Value = { State };

    ghost use Rattle.cat_state.specs.Keeping.{IsCatalogue};

    ghost view = { λ c. record {
      place = c.place;
      references = c.references;
      commits = c.commits;
      present = c.contents;
      limits = c.limits;
    } };

    ghost invariant = { λ c. IsCatalogue c.limits c.references c.commits c.maps c.contents
        c.place };
}

impl Catalogue {
    /// An empty catalogue: the branch `main` without a commit.
    pub fn new(alloc: Global, limits: Limits) -> Result<Catalogue, NoMemory>
        requires log { limits.log ≤ 4294967295 }
        requires commits { limits.commits ≤ 4294967295 }
        ensures { IfOk result (λ catalogue. catalogue ≡ first_state sha256 limits) }
    {
        let main = Reference {
            name: RefName::main(alloc)?,
            kind: Kind::Branch,
            head: Hash::none(),
        };
        Ok(Catalogue {
            place: 0,
            references: References::new(alloc).with(alloc, main)?,
            commits: Graph::new(alloc),
            maps: Maps::new(alloc),
            contents: Table::new(alloc),
            limits,
        })
    }

    /// How many entries its log has.
    pub fn place(&self) -> u32
        ensures { result ≡ self.now.place }
    {
        self.place
    }

    /// The most of each quantity.
    pub fn limits(&self) -> Limits
        ensures value { result ≡ self.now.limits }
        ensures log { result.log ≤ 4294967295 }
        ensures commits { result.commits ≤ 4294967295 }
    {
        self.limits
    }

    /// The map at a commit; an empty one at a hash that is no commit's.
    #[tactic(auto, using(crate::proofs::Kept::map_is))]
    pub fn map_at(&self, hash: &Hash) -> Result<KeyMap, AllocError>
        ensures { IfOk result (λ map. map ≡ entries self.now.commits hash.now) }
    {
        match self.maps().get(hash) {
            None => Ok(KeyMap::empty()),
            Some(map) => copy_map(map),
        }
    }

    /// What holds of the map at each commit: the parent of each key is there as a namespace.
    #[tactic(auto, using(crate::proofs::Kept::well_entries))]
    pub fn map_is_well_formed(&self, hash: &Hash)
        ensures { IsTrue (is_well_formed (entries self.now.commits hash.now)) }
    {
        let _ = hash;
        let _ = self.maps();
    }

    /// What holds of its commits: no hash comes twice, each stands above its parents, and its
    /// generation is one more than the greatest of theirs.
    pub fn commits_are_linked(&self)
        ensures { AreLinked self.now.commits }
    {
        let _ = self.commits();
    }

    /// Says what holds of it: a log may start from it, where its default branch is there.
    pub fn may_start(&self)
        requires main { IsTrue (has_main self.now.references) }
        ensures { may_start sha256 self.now ≡ true }
    {
        self.commits.known();
    }

    /// The generation of a hash; 0 for the one that has no ancestor, and for one that isn't known.
    #[tactic(auto, using(cat_graph::specs::GraphLaws::generation_bound))]
    pub fn generation(&self, hash: &Hash) -> u64
        ensures value { result ≡ generation self.now.commits hash.now }
        ensures bound { result ≤ length self.now.commits }
    {
        self.commits().generation(hash)
    }

    /// Its references, in the order of their names.
    pub fn references(&self) -> &References
        ensures list { result.now ≡ self.now.references }
        ensures heads { IsTrue (heads_pass (is_known self.now.commits) self.now.references) }
        ensures held { IsTrue
            (heads_pass (is_held_at self.now.commits self.now.present) self.now.references) }
    {
        &self.references
    }

    /// Its commits under their hashes.
    pub fn commits(&self) -> &Graph
        ensures list { result.now ≡ self.now.commits }
        ensures linked { AreLinked self.now.commits }
    {
        self.commits.known();
        &self.commits
    }

    /// The map at each of its commits.
    #[tactic(auto, using(crate::proofs::Kept::map_is))]
    pub fn maps(&self) -> &Maps
        ensures kept { AreKept result.now self.now.commits }
        ensures maps { (hash : Hash)
            → found_map (map_at result.now hash) ≡ entries self.now.commits hash }
    {
        &self.maps
    }

    /// Its contents under their hashes.
    pub fn contents(&self) -> &Table<Content>
        ensures { result.now ≡ self.now.present }
    {
        &self.contents
    }
}
