ghost use Rattle.std.specs.Prelude.{◌≡◌, ◌≤◌, ◌<◌, ◌^◌, true, length, option_map, IfSome, IsTrue};
ghost use Rattle.std.specs.Result.{OkIff};
ghost use Rattle.std.specs.Str.{all_ascii_digits};
ghost use Rattle.std.specs.Str.Parse.{digits_value};
ghost use Rattle.cat_queries.specs.Parameters.{is_number, limit_of, page_limit};

use cat_codes::text::Text;
use std::num::ParseIntError;

const DEFAULT_LIMIT: u32 = 200;

const LARGEST_LIMIT: u32 = 1000;

fn are_digits(text: &[u8]) -> bool
    ensures { result ≡ all_ascii_digits text.now }
{
    for byte in text {
        if !byte.is_ascii_digit() {
            return false;
        }
    }
    true
}

/// Whether it is one digit or more, and nothing else.
pub fn is_number(text: &str) -> bool
    ensures { result ≡ is_number text.now }
{
    !text.is_empty() && are_digits(text.as_bytes())
}

/// The number of digits; an error where there are none, or the number is too large.
pub fn read_digits(text: &str) -> Result<u32, ParseIntError>
    requires { all_ascii_digits text.now ≡ true }
    ensures { OkIff result ((0 < length text.now) × (digits_value 10 text.now < 2 ^ 32))
        (digits_value 10 text.now) }
{
    text.parse::<u32>()
}

// A number that is too large for its type is above every limit.
fn limit_of(text: &str) -> u32
    requires { IsTrue (is_number text.now) }
    ensures { result ≡ limit_of (digits_value 10 text.now) }
{
    match read_digits(text) {
        Ok(0) => DEFAULT_LIMIT,
        Ok(asked) => asked.min(LARGEST_LIMIT),
        Err(_) => LARGEST_LIMIT,
    }
}

/// How many records a page has, by the value of its parameter: 200 where it is absent or 0, and
/// at most 1,000. None where it isn't a number in digits.
pub fn page_limit(value: Option<&Text>) -> Option<u32>
    ensures limit { result ≡ page_limit (option_map (λ t. t.now) value.entry) }
    ensures range { IfSome result (λ n. (1 ≤ n) × (n ≤ 1000)) }
{
    let Some(value) = value else {
        return Some(DEFAULT_LIMIT);
    };
    let text = value.as_str();
    if !is_number(text) {
        return None;
    }
    Some(limit_of(text))
}
