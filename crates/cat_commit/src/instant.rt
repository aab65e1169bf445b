//! Instants as texts.

ghost use Rattle.std.specs.Prelude.{◌≡◌, ◌<◌, ◌≤◌, ◌*ℤ◌, Some, pos, refl};
ghost use Rattle.jiff.specs.Words.{civil_nanos};
ghost use Rattle.cat_commit.specs.Instants.{digit, civil_text, instant_text, moment_of, moment_as, moment_data};

use cat_codes::fault::NoMemory;
use cat_json::fault::JsonFault;
use cat_json::read::ReadForm;
use cat_json::write::WriteForm;
use cat_model::moment::Moment;
use jiff::Timestamp;
use jiff::civil::DateTime;
use jiff::tz::Offset;
use serde_json::Value;
use std::alloc::Global;

/// The moment that a text names, cut to microseconds. None where `jiff` reads no timestamp, as
/// where there is no offset, and before 1970.
pub fn read_instant(text: &str) -> Option<Moment>
    ensures { result ≡ moment_of text.now }
{
    let Ok(found) = text.parse::<Timestamp>() else {
        return None;
    };
    let nanos = found.as_nanosecond();
    if nanos < 0 {
        return None;
    }
    Some(Moment::from_micros((nanos / 1000) as u64))
}

/// The civil time of a moment, at UTC.
fn civil_of(moment: Moment) -> DateTime
    ensures civil { civil_nanos result ≡ pos moment *ℤ pos 1000 }
    ensures known { moment ≤ 253402207200999999 }
{
    let Ok(found) = Timestamp::from_microsecond(moment.micros() as i64) else {
        unreachable!()
    };
    Offset::UTC.to_datetime(found)
}

fn digit(n: u32, unit: u32) -> u8
    requires { 0 < unit }
    ensures { result ≡ digit n unit }
{
    b'0' + (n / unit % 10) as u8
}

fn civil_text(dt: DateTime) -> [u8; 27]
    ensures { result ≡ civil_text dt }
{
    let year = u32::from(dt.year().unsigned_abs());
    let month = dt.month() as u32;
    let day = dt.day() as u32;
    let hour = dt.hour() as u32;
    let minute = dt.minute() as u32;
    let second = dt.second() as u32;
    let micros = dt.subsec_nanosecond() as u32 / 1000;
    [
        digit(year, 1000),
        digit(year, 100),
        digit(year, 10),
        digit(year, 1),
        b'-',
        digit(month, 10),
        digit(month, 1),
        b'-',
        digit(day, 10),
        digit(day, 1),
        b'T',
        digit(hour, 10),
        digit(hour, 1),
        b':',
        digit(minute, 10),
        digit(minute, 1),
        b':',
        digit(second, 10),
        digit(second, 1),
        b'.',
        digit(micros, 100_000),
        digit(micros, 10_000),
        digit(micros, 1000),
        digit(micros, 100),
        digit(micros, 10),
        digit(micros, 1),
        b'Z',
    ]
}

/// The text of a moment at UTC: `YYYY-MM-DDTHH:MM:SS.ffffffZ`. It is read as that moment again.
pub fn write_instant(moment: Moment) -> [u8; 27]
    ensures text { result ≡ instant_text moment }
    ensures reads_again { moment_of result ≡ Some moment }
{
    civil_text(civil_of(moment))
}

/// The form of moments: read as any instant that `jiff` reads, written with six digits.
pub struct InstantForm;

impl ReadForm for InstantForm {
    type Of = Moment;

    ghost reads = { moment_as };

    fn from_json(_alloc: Global, value: &Value) -> Result<Moment, JsonFault> {
        match value.as_str().and_then(read_instant) {
            Some(moment) => Ok(moment),
            None => Err(JsonFault::Bad),
        }
    }
}

impl WriteForm for InstantForm {
    type Of = Moment;

    ghost writes = { moment_data };

    ghost no_float = { λ _. refl };

    fn to_json(alloc: Global, value: &Moment) -> Result<Value, NoMemory> {
        let text = write_instant(*value);
        let Ok(text) = str::from_utf8(text.as_slice()) else {
            unreachable!()
        };
        Ok(Value::String(String::from_str(alloc, text)?))
    }
}
