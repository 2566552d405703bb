// Values, as words of a line and of an answer.
use crate::digits::{is_hex, parse_signed};
use crate::output::Hex;
use crate::stop::Stop;
use crate::words::Words;
use std::fmt;
use temporal::{Date, Datetime, Seconds, Temporal, Time};
use value::Value;
use wire::Part;

// A value, and the bytes that its part is of.
#[derive(Clone, Copy)]
pub(crate) struct Lent<'a> {
    pub(crate) value: Value,
    pub(crate) bytes: &'a [u8],
}

fn read_date(parts: &mut Words<'_>) -> Result<Date, Stop> {
    Ok(Date {
        year: parts.number()?,
        month: parts.number()?,
        day: parts.number()?,
    })
}

fn read_datetime(parts: &mut Words<'_>) -> Result<Datetime, Stop> {
    Ok(Datetime {
        year: parts.number()?,
        month: parts.number()?,
        day: parts.number()?,
        hour: parts.number()?,
        minute: parts.number()?,
        second: parts.number()?,
        micros: parts.number()?,
    })
}

// The sign of a time: whether it is a minus.
fn read_sign(parts: &mut Words<'_>) -> Result<bool, Stop> {
    match &*parts.word()? {
        b"+" => Ok(false),
        b"-" => Ok(true),
        _ => Err(Stop::Bad),
    }
}

fn read_time(parts: &mut Words<'_>) -> Result<Time, Stop> {
    Ok(Time {
        negative: read_sign(parts)?,
        hours: parts.number()?,
        minutes: parts.number()?,
        seconds: parts.number()?,
        micros: parts.number()?,
    })
}

fn read_seconds(parts: &mut Words<'_>) -> Result<Seconds, Stop> {
    Ok(Seconds {
        seconds: parts.number()?,
        micros: parts.number()?,
    })
}

// A value that has no bytes, by its name and the parts behind it.
fn read_plain(name: &[u8], mut parts: Words<'_>) -> Result<Value, Stop> {
    let value = match name {
        b"null" => Value::Null,
        b"int" => Value::Int(parse_signed(parts.word()?).ok_or(Stop::Bad)?),
        b"uint" => Value::Uint(parts.number()?),
        b"float" => Value::Float(parts.number()?),
        b"double" => Value::Double(parts.number()?),
        b"year" => Value::Year(parts.number()?),
        b"seconds" => Value::Temporal(Temporal::Seconds(read_seconds(&mut parts)?)),
        b"date" => Value::Temporal(Temporal::Date(read_date(&mut parts)?)),
        b"datetime" => Value::Temporal(Temporal::Datetime(read_datetime(&mut parts)?)),
        b"time" => Value::Temporal(Temporal::Time(read_time(&mut parts)?)),
        _ => return Err(Stop::Bad),
    };
    parts.end()?;
    Ok(value)
}

// `bytes:HEX`, behind its name
fn read_bytes<'a>(mut parts: Words<'a>) -> Result<Lent<'a>, Stop> {
    let bytes = parts.bytes()?;
    parts.end()?;
    let part = Part {
        start: 0,
        len: bytes.len(),
    };
    Ok(Lent {
        value: Value::Bytes(part),
        bytes,
    })
}

pub(crate) fn read_value<'a>(word: &'a mut [u8]) -> Result<Lent<'a>, Stop> {
    let (name, parts) = Words::behind_name(word, b':');
    if name == b"bytes".as_slice() {
        return read_bytes(parts);
    }
    Ok(Lent {
        value: read_plain(name, parts)?,
        bytes: &[],
    })
}

// Whether a word can be read so. It stays as it is.
pub(crate) fn is_value(word: &mut [u8]) -> bool {
    match word.strip_prefix(b"bytes:") {
        Some(hex) => is_hex(hex),
        None => read_value(word).is_ok(),
    }
}

fn write_temporal<W: fmt::Write>(t: Temporal, f: &mut fmt::Formatter<W>) -> fmt::Result {
    match t {
        Temporal::Seconds(s) => write!(f, "seconds:{}:{}", s.seconds, s.micros),
        Temporal::Date(d) => write!(f, "date:{}:{}:{}", d.year, d.month, d.day),
        Temporal::Datetime(d) => {
            write!(f, "datetime:{}:{}:{}", d.year, d.month, d.day)?;
            write!(f, ":{}:{}:{}:{}", d.hour, d.minute, d.second, d.micros)
        }
        Temporal::Time(t) => {
            let sign = if t.negative { '-' } else { '+' };
            write!(
                f,
                "time:{sign}:{}:{}:{}:{}",
                t.hours, t.minutes, t.seconds, t.micros
            )
        }
    }
}

impl fmt::Display for Lent<'_> {
    fn fmt<W: fmt::Write>(&self, f: &mut fmt::Formatter<W>) -> fmt::Result {
        match self.value {
            Value::Null => write!(f, "null"),
            Value::Int(n) => write!(f, "int:{n}"),
            Value::Uint(n) => write!(f, "uint:{n}"),
            Value::Float(bits) => write!(f, "float:{bits}"),
            Value::Double(bits) => write!(f, "double:{bits}"),
            Value::Year(year) => write!(f, "year:{year}"),
            Value::Temporal(t) => write_temporal(t, f),
            Value::Bytes(part) => write!(f, "bytes:{}", Hex(wire::part_of(self.bytes, part))),
        }
    }
}
