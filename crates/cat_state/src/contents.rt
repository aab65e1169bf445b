//! Contents that are kept.

ghost use Rattle.std.specs.Prelude.{◌≡◌};
ghost use Rattle.std.specs.Option.{option_copied};
ghost use Rattle.cat_model.specs.State.{content_at};

use cat_model::content::Content;
use cat_names::hash::Hash;
use cat_tables::table::Table;

/// The content of a hash.
#[tactic(auto, using(cat_tables::specs::LookUps::value_is_found))]
pub fn find_content<'a>(contents: &'a Table<Content>, hash: &Hash) -> Option<&'a Content>
    ensures { option_copied result ≡ content_at contents.now hash.now }
{
    contents.get(hash)
}
