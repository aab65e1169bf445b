//! Durations and instants as texts.

ghost use Rattle.std.specs.Prelude.{◌≡◌, ◌-◌};
ghost use Rattle.cat_policy.specs.Times.{duration_of, instant_of};

use cat_model::moment::Moment;
use jiff::{Span, Timestamp};

/// The microseconds of a duration, cut: a week has 7 days, a day 24 hours. None where `jiff` reads
/// no span, where there are years or months, and where it is negative.
pub(crate) fn duration(text: &str) -> Option<u128>
    ensures { result ≡ duration_of text.now }
{
    let Ok(found) = text.parse::<Span>() else {
        return None;
    };
    if found.is_negative() || found.get_years() != 0 || found.get_months() != 0 {
        return None;
    }
    let days = found.get_weeks() as u128 * 7 + found.get_days() as u128;
    let hours = days * 24 + found.get_hours() as u128;
    let minutes = hours * 60 + found.get_minutes() as u128;
    let seconds = minutes * 60 + found.get_seconds() as u128;
    let nanos = seconds * 1_000_000_000
        + found.get_milliseconds() as u128 * 1_000_000
        + found.get_microseconds() as u128 * 1_000
        + found.get_nanoseconds() as u128;
    Some(nanos / 1000)
}

/// The moment that a text names, cut to microseconds. None where `jiff` reads no timestamp, as
/// where there is no offset, and before 1970.
pub(crate) fn instant(text: &str) -> Option<Moment>
    ensures { result ≡ instant_of text.now }
{
    let Ok(found) = text.parse::<Timestamp>() else {
        return None;
    };
    let nanos = found.as_nanosecond();
    if nanos < 0 {
        return None;
    }
    Some(Moment::from_micros((nanos / 1000) as u64))
}

/// The moment so many microseconds before another; the first moment where there is none.
pub(crate) fn moment_before(moment: Moment, length: u128) -> Moment
    ensures { result ≡ moment - length }
{
    let micros = u128::from(moment.micros()).saturating_sub(length) as u64;
    Moment::from_micros(micros)
}
