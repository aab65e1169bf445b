//! Cutoffs as they are asked for.

ghost use Rattle.std.specs.Prelude.{◌≡◌, ◌<◌, ◌^◌, IsTrue, length, true};
ghost use Rattle.std.specs.Result.{OkIff};
ghost use Rattle.std.specs.Str.{all_ascii_digits};
ghost use Rattle.std.specs.Str.Parse.{digits_value};
ghost use Rattle.cat_policy.specs.GivenCutoffs.{begins_with_p, counted, cutoff_as, cutoff_at, cutoff_of, is_count, is_none_word};

use crate::times::{duration, instant, moment_before};
use cat_json::fault::JsonFault;
use cat_json::read::ReadForm;
use cat_model::cutoff::Cutoff;
use cat_model::moment::Moment;
use serde_json::Value;
use std::alloc::Global;
use std::num::ParseIntError;

/// How much of a chain is kept, as it is asked for.
#[derive(Drop)]
pub enum GivenCutoff {
    /// The same at each moment.
    Fixed(Cutoff),
    /// What isn't older than so many microseconds before the call's moment.
    Back(u128),
}

fn is_none_word(text: &str) -> bool
    ensures { result ≡ is_none_word text.now }
{
    text.eq_ignore_ascii_case("none")
}

fn all_digits(bytes: &[u8]) -> bool
    ensures { result ≡ all_ascii_digits bytes.now }
{
    for byte in bytes {
        if !byte.is_ascii_digit() {
            return false;
        }
    }
    true
}

// 1 to 10 digits.
fn is_count(text: &str) -> bool
    ensures { result ≡ is_count text.now }
{
    !text.is_empty() && text.len() <= 10 && all_digits(text.as_bytes())
}

// What `parse` reads of digits alone: it would take a sign too.
fn digits(text: &str) -> Result<u32, ParseIntError>
    requires { all_ascii_digits text.now ≡ true }
    ensures { OkIff result ((0 < length text.now) × (digits_value 10 text.now < 2 ^ 32))
        (digits_value 10 text.now) }
{
    text.parse::<u32>()
}

fn counted(text: &str) -> Option<GivenCutoff>
    requires { IsTrue (is_count text.now) }
    ensures { result ≡ counted (digits_value 10 text.now) }
{
    match digits(text) {
        Ok(0) => None,
        Ok(count) => Some(GivenCutoff::Fixed(Cutoff::Commits(count))),
        Err(_) => None,
    }
}

fn begins_with_p(text: &str) -> bool
    ensures { result ≡ begins_with_p text.now }
{
    match text.as_bytes() {
        [] => false,
        [first, ..] => *first == b'P',
    }
}

impl GivenCutoff {
    /// The cutoff that a text is: `NONE` in any letter case; 1 to 10 digits, a number from 1 to
    /// 4,294,967,295; a text that begins with `P`, a duration in the form of ISO 8601 without years
    /// and months that isn't negative; any other text, an instant that isn't before 1970.
    #[tactic(auto, unfolding(crate::specs::GivenCutoffs::cutoff_of))]
    pub fn parse(text: &str) -> Option<GivenCutoff>
        ensures { result ≡ cutoff_of text.now }
    {
        if is_none_word(text) {
            return Some(GivenCutoff::Fixed(Cutoff::All));
        }
        if is_count(text) {
            return counted(text);
        }
        if begins_with_p(text) {
            return Some(GivenCutoff::Back(duration(text)?));
        }
        Some(GivenCutoff::Fixed(Cutoff::Since(instant(text)?)))
    }

    /// The cutoff at a moment.
    pub fn at(&self, moment: Moment) -> Cutoff
        ensures { result ≡ cutoff_at moment self.now }
    {
        match self {
            GivenCutoff::Fixed(cutoff) => *cutoff,
            GivenCutoff::Back(length) => Cutoff::Since(moment_before(moment, *length)),
        }
    }
}

/// A string that is a cutoff.
impl ReadForm for GivenCutoff {
    type Of = GivenCutoff;

    ghost reads = { cutoff_as };

    fn from_json(_alloc: Global, value: &Value) -> Result<GivenCutoff, JsonFault> {
        match value.as_str().and_then(GivenCutoff::parse) {
            Some(cutoff) => Ok(cutoff),
            None => Err(JsonFault::Bad),
        }
    }
}
