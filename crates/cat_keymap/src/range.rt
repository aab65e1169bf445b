//! The range of a map in which a page lies, and what of it is on the page.

ghost use Rattle.std.specs.Prelude.{◌≡◌, true};
ghost use Rattle.std.specs.Option.{option_map, option_map_or};
ghost use Rattle.std.specs.Ordering.{is_le};
ghost use Rattle.cat_codes.specs.Code.{follows};
ghost use Rattle.cat_names.specs.Fields.{key_cmp};
ghost use Rattle.cat_model.specs.Keys;
ghost use Rattle.cat_keymap.specs.Range;

use crate::children::begins_with;
use crate::key_map::KeyMap;
use crate::walk::Walk;
use cat_model::filter::Filter;
use cat_names::key::ContentKey;

fn later<'a>(a: Option<&'a ContentKey>, b: Option<&'a ContentKey>) -> Option<&'a ContentKey>
    ensures { option_map (λ key. key.now) result
        ≡ Range.later (option_map (λ key. key.now) a.entry)
        (option_map (λ key. key.now) b.entry) }
{
    match (a, b) {
        (None, _) => b,
        (Some(_), None) => a,
        (Some(x), Some(y)) => { if x.cmp(y).is_lt() { b } else { a } }
    }
}

/// The key that no key of the page is below, if there is one.
fn start<'a>(filter: &'a Filter, after: Option<&'a ContentKey>) -> Option<&'a ContentKey>
    ensures { option_map (λ key. key.now) result
        ≡ Range.start filter.now (option_map (λ key. key.now) after.entry) }
{
    later(later(filter.min.as_ref(), filter.prefix.as_ref()), after)
}

/// The walk from where the page begins.
pub(crate) fn from_start<'a>(
    map: &'a KeyMap,
    filter: &Filter,
    after: Option<&ContentKey>,
) -> Walk<'a>
    ensures { result
        ≡ Range.from_start map.now
        (Range.start filter.now (option_map (λ key. key.now) after.entry)) }
{
    match start(filter, after) {
        None => map.walk(),
        Some(key) => map.walk_from(key),
    }
}

fn is_from(min: &Option<ContentKey>, key: &ContentKey) -> bool
    ensures { result ≡ option_map_or (λ min. is_le (key_cmp min key.now)) min.now true }
{
    match min {
        None => true,
        Some(min) => min.cmp(key).is_le(),
    }
}

fn is_up_to(max: &Option<ContentKey>, key: &ContentKey) -> bool
    ensures { result ≡ option_map_or (λ max. is_le (key_cmp key.now max)) max.now true }
{
    match max {
        None => true,
        Some(max) => key.cmp(max).is_le(),
    }
}

fn is_after(after: Option<&ContentKey>, key: &ContentKey) -> bool
    ensures { result ≡ follows key_cmp (option_map (λ key. key.now) after.entry) key.now }
{
    match after {
        None => true,
        Some(after) => after.cmp(key).is_lt(),
    }
}

fn has_prefix(prefix: &Option<ContentKey>, key: &ContentKey) -> bool
    ensures { result ≡ option_map_or (λ prefix. Keys.begins_with key.now prefix) prefix.now true }
{
    match prefix {
        None => true,
        Some(prefix) => begins_with(key.elements(), prefix.elements()),
    }
}

/// Whether a key with the prefix is there or may follow.
fn may_have_prefix(prefix: &Option<ContentKey>, key: &ContentKey) -> bool
    ensures { result ≡ Range.may_have_prefix prefix.now key.now }
{
    match prefix {
        None => true,
        Some(prefix) => {
            key.cmp(prefix).is_le() || begins_with(key.elements(), prefix.elements())
        }
    }
}

/// Whether the range still goes on at a key.
pub(crate) fn goes_on(filter: &Filter, key: &ContentKey) -> bool
    ensures { result ≡ Range.goes_on filter.now key.now }
{
    is_up_to(&filter.max, key) && may_have_prefix(&filter.prefix, key)
}

/// Whether a key passes the filter, whatever keys that names, and comes after the one that is
/// given.
pub(crate) fn admits(filter: &Filter, after: Option<&ContentKey>, key: &ContentKey) -> bool
    ensures { result ≡ Range.admits filter.now (option_map (λ key. key.now) after.entry) key.now }
{
    is_after(after, key)
        && (is_from(&filter.min, key)
            && is_up_to(&filter.max, key)
            && has_prefix(&filter.prefix, key))
}
