//! The contents of keys.

ghost use Rattle.std.specs.Prelude.{◌≡◌, ◌++◌, ◌∷◌, [], IfOk, OnOk, filter_map};
ghost use Rattle.std.specs.Option.{option_copied};
ghost use Rattle.cat_model.specs.Answer as answers;

use cat_codes::fault::NoMemory;
use cat_codes::seq::Seq;
use cat_keymap::key_map::KeyMap;
use cat_model::content::Content;
use cat_model::copies::copy_content;
use cat_names::key::ContentKey;
use cat_state::contents::find_content;
use cat_tables::table::Table;
use std::alloc::Global;

/// The content of a key, where it is there and the catalogue holds it.
fn content_of_key<'a>(
    contents: &'a Table<Content>,
    map: &KeyMap,
    key: &ContentKey,
) -> Option<&'a Content>
    ensures { option_copied result ≡ answers.content_of_key contents.now map.now key.now }
{
    match map.get(key) {
        None => None,
        Some(entry) => find_content(contents, &entry.hash),
    }
}

/// The same with the key.
fn keyed_content(
    contents: &Table<Content>,
    map: &KeyMap,
    key: &ContentKey,
) -> Result<Option<(ContentKey, Content)>, NoMemory>
    ensures { IfOk result
        (λ keyed. keyed ≡ answers.keyed_content contents.now map.now key.now) }
{
    match content_of_key(contents, map, key) {
        None => Ok(None),
        Some(content) => Ok(Some((key.clone()?, copy_content(content)?))),
    }
}

/// Adds the content of a key, with the key, if it has one.
fn add_keyed(
    found: &mut Seq<(ContentKey, Content)>,
    contents: &Table<Content>,
    map: &KeyMap,
    key: &ContentKey,
) -> Result<(), NoMemory>
    ensures { OnOk result
        (found.new
        ≡ found.old
        ++ filter_map (answers.keyed_content contents.now map.now) (key.now ∷ [])) }
{
    if let Some(keyed) = keyed_content(contents, map, key)? {
        found.push(keyed)?;
    }
    Ok(())
}

/// The contents of keys in their order, without keys that have none.
pub(crate) fn keyed_contents(
    alloc: Global,
    contents: &Table<Content>,
    map: &KeyMap,
    keys: &[ContentKey],
) -> Result<Seq<(ContentKey, Content)>, NoMemory>
    ensures { IfOk result
        (λ found. found ≡ filter_map (answers.keyed_content contents.now map.now) keys.now) }
{
    let mut found = Seq::new(alloc);
    for key in keys {
        add_keyed(&mut found, contents, map, key)?;
    }
    Ok(found)
}
