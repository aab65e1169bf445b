ghost use Rattle.cat_http.specs.Reading.{HasOneReading};

/// A stream of bytes has one reading: one request and one rest, or one kind of ending.
pub fn one_stream_has_one_reading()
    ensures { HasOneReading }
{}
