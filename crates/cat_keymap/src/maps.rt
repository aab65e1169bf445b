//! The maps at commits.

ghost use Rattle.std.specs.Prelude.{◌≡◌, [], ◌++◌, IfOk, IsTrue, length};
ghost use Rattle.std.specs.Option.{option_map};
ghost use Rattle.cat_tables.specs.Tables.{are_distinct};
ghost use Rattle.cat_keymap.specs.MapsAt.{map_at};

use crate::key_map::KeyMap;
use cat_codes::fault::NoMemory;
use cat_names::hash::Hash;
use cat_tables::batch::Batch;
use cat_tables::table::Table;
use std::alloc::{AllocError, Global};
use std::marker::Model;

/// Maps under the hashes of their commits, found by one look-up. They are never changed: those with
/// more maps share with these the ones that they have. Contracts see the list, the newest first.
#[derive(Drop)]
pub struct Maps {
    table: Table<KeyMap>,
}

impl Model for Maps {
    ghost use Rattle.std.specs.Prelude.{List};
    ghost use Rattle.cat_names.specs.declared.hash.Hash.{Hash};
    ghost use Rattle.cat_model.specs.Maps.{Map};

    ghost Value = { List (Hash × Map) };

    ghost view = { λ m. m.table };
}

impl Clone for Maps {
    ghost is_clone = { λ a b. b ≡ a };

    /// The same maps, which share their memory.
    fn clone(&self) -> Result<Maps, AllocError> {
        Ok(Maps {
            table: self.table.clone()?,
        })
    }
}

impl Maps {
    /// No maps.
    pub fn new(alloc: Global) -> Maps
        ensures { result ≡ [] }
    {
        Maps {
            table: Table::new(alloc),
        }
    }

    /// What holds of all maps: no hash comes twice.
    pub fn known(&self)
        ensures { IsTrue (are_distinct self.now) }
    {
        self.table.known();
    }

    /// How many maps there are.
    pub fn len(&self) -> usize
        ensures { result ≡ length self.now }
    {
        self.table.len()
    }

    /// The map of a hash.
    #[tactic(auto, using(crate::specs::MapsAt::map_is))]
    pub fn get(&self, hash: &Hash) -> Option<&KeyMap>
        ensures { option_map (λ m. m.now) result ≡ map_at self.now hash.now }
    {
        self.table.get(hash)
    }

    /// The maps with those of a batch, under hashes that are not there, above their own.
    pub fn with(&self, alloc: Global, more: Batch<KeyMap>) -> Result<Maps, NoMemory>
        requires { IsTrue (are_distinct (more.list ++ self.now)) }
        ensures { IfOk result (λ maps. maps ≡ more.list ++ self.now) }
    {
        Ok(Maps {
            table: self.table.with(alloc, more)?,
        })
    }

    /// The maps with those of a batch, as by [`Maps::with`]. One map is put in their own memory where
    /// no others share it.
    pub fn into_with(self, alloc: Global, more: Batch<KeyMap>) -> Result<Maps, NoMemory>
        requires { IsTrue (are_distinct (more.list ++ self)) }
        ensures { IfOk result (λ maps. maps ≡ more.list ++ self) }
    {
        Ok(Maps {
            table: self.table.into_with(alloc, more)?,
        })
    }
}
