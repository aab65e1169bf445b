//! A catalogue that stays as it is.

ghost use Rattle.std.specs.Prelude.{◌≡◌};
ghost use Rattle.cat_state.specs.Views.{catalogue_in};

use crate::catalogue::Catalogue;
use std::marker::Model;
use std::sync::Arc;

/// The catalogue at a place of its log. It stays as it is: a change puts another in its place.
#[derive(Drop)]
pub struct View {
    catalogue: Arc<Catalogue>,
}

impl Model for View {
    ghost use Rattle.cat_model.specs.State.{State};
    ghost use Rattle.cat_state.specs.Views.{catalogue_in};

    ghost Value = { State };

    ghost view = { λ v. catalogue_in v.catalogue };
}

impl View {
    /// A view of the catalogue that it shares.
    pub(crate) fn new(catalogue: Arc<Catalogue>) -> View
        ensures { result ≡ catalogue_in catalogue }
    {
        View { catalogue }
    }

    /// How many entries the catalogue's log has.
    pub fn place(&self) -> u32
        ensures { result ≡ self.now.place }
    {
        self.catalogue().place()
    }

    /// The catalogue.
    pub fn catalogue(&self) -> &Catalogue
        ensures { result.now ≡ self.now }
    {
        &self.catalogue
    }
}
