//! Numbers in words.

ghost use Rattle.std.specs.Prelude.{◌≡◌, ◌<◌, ◌≤◌, ◌^◌, IfSome, length, true};
ghost use Rattle.std.specs.Result.{OkIff};
ghost use Rattle.std.specs.Str.{all_ascii_digits};
ghost use Rattle.std.specs.Str.Parse.{digits_value};
ghost use Rattle.cat_words.specs.Numbers.{number_between, number_of};

use std::num::ParseIntError;

fn all_digits(bytes: &[u8]) -> bool
    ensures { result ≡ all_ascii_digits bytes.now }
{
    for byte in bytes {
        if !byte.is_ascii_digit() {
            return false;
        }
    }
    true
}

// What `parse` reads of digits alone: it would take a sign too.
fn digits(text: &str) -> Result<u64, ParseIntError>
    requires { all_ascii_digits text.now ≡ true }
    ensures { OkIff result ((0 < length text.now) × (digits_value 10 text.now < 2 ^ 64))
        (digits_value 10 text.now) }
{
    text.parse::<u64>()
}

/// A number of 1 to 20 digits, at most `most`.
pub(crate) fn number(text: &str, most: u64) -> Option<u64>
    ensures number { result ≡ number_of most text.now }
    ensures bound { IfSome result (λ number. number ≤ most) }
{
    if text.len() > 20 || !all_digits(text.as_bytes()) {
        return None;
    }
    let Ok(number) = digits(text) else {
        return None;
    };
    if number <= most { Some(number) } else { None }
}

/// A number of 1 to 20 digits, at least `least` and at most `most`.
pub(crate) fn number_between(text: &str, least: u32, most: u32) -> Option<u32>
    ensures number { result ≡ number_between least most text.now }
    ensures bound { IfSome result (λ number. (least ≤ number) × (number ≤ most)) }
{
    let number = number(text, u64::from(most))? as u32;
    if least <= number { Some(number) } else { None }
}
