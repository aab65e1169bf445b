//! Pages.

ghost use Rattle.std.specs.Prelude.{◌≡◌};
ghost use Rattle.std.specs.Option.{option_copied};
ghost use Rattle.cat_model.specs.Pages.{last};

use crate::token::Token;
use cat_codes::seq::Seq;

/// A page of a listing.
#[derive(Drop)]
pub struct Page<T> {
    pub items: Seq<T>,
    /// Where the listing goes on; none where nothing follows.
    pub token: Option<Token>,
}

/// The last item.
#[tactic(auto, using(crate::proofs::Lists::last_is))]
pub(crate) fn last<T>(items: &[T]) -> Option<&T>
    ensures { option_copied result ≡ last items.now }
{
    items.last()
}
