ghost use Rattle.std.specs.Prelude.{length, map, All};
ghost use Rattle.httparse.specs.Spans.{header_bytes, IsHeaderWithin};
ghost use Rattle.http_front.specs.Requests.{values_of};
ghost use Rattle.http_front.specs.Framings.{ValuesAre, AreNow, FramingIs, LengthIs};

use super::limits::BODY_MOST;
use head_text::{is_same_name, read_dec};
use httparse::spans::HeaderSpan;

/// What the headers of a request say of its body (RFC 9112, section 6).
#[derive(Clone, Copy)]
pub enum Framing {
    /// It has so many bytes.
    Body(usize),
    /// A Transfer-Encoding is there.
    Coded,
    /// Content-Length is repeated, or is no number.
    BadLength,
    /// Content-Length is over what is taken.
    TooLarge,
}

/// The values of the headers of one name, as far as they say how long a body is.
#[derive(Clone, Copy)]
pub enum Values<'a> {
    /// There is none.
    Absent,
    /// There is this one.
    One(&'a [u8]),
    /// There are more.
    Several,
}

// The values and one more.
fn with_one<'a>(values: Values<'a>, value: &'a [u8]) -> Values<'a>
    ensures { AreNow values.entry value.now result }
{
    match values {
        Values::Absent => Values::One(value),
        Values::One(_) => Values::Several,
        Values::Several => Values::Several,
    }
}

// The values of the headers of this name.
fn values_named<'a>(bytes: &'a [u8], spans: &[HeaderSpan], name: &[u8]) -> Values<'a>
    requires { All (IsHeaderWithin (length bytes.now)) spans.now }
    ensures { ValuesAre result (values_of name.now (map (header_bytes bytes.now) spans.now)) }
{
    let mut found = Values::Absent;
    for span in spans {
        if is_same_name(span.name.of(bytes), name) {
            found = with_one(found, span.value.of(bytes));
        }
    }
    found
}

// What one value of Content-Length tells.
fn length_in(value: &[u8]) -> Framing
    ensures { LengthIs value.now result }
{
    match read_dec(value) {
        None => Framing::BadLength,
        Some(many) if many > BODY_MOST as u64 => Framing::TooLarge,
        Some(many) => Framing::Body(many as usize),
    }
}

/// What the headers that the spans cover say of the body.
pub fn framing_of(bytes: &[u8], spans: &[HeaderSpan]) -> Framing
    requires { All (IsHeaderWithin (length bytes.now)) spans.now }
    ensures { FramingIs (map (header_bytes bytes.now) spans.now) result }
{
    match values_named(bytes, spans, b"transfer-encoding") {
        Values::Absent => match values_named(bytes, spans, b"content-length") {
            Values::Absent => Framing::Body(0),
            Values::One(value) => length_in(value),
            Values::Several => Framing::BadLength,
        },
        _ => Framing::Coded,
    }
}
