// The kinds `list` and `item`: the lists in optional fields.
use crate::output::Hex;
use crate::stop::{Answer, Stop};
use crate::words::Words;
use std::fmt;
use std::io::Write;
use table_map::{Groups, Integers, Pairs, Strings};
use wire::Refusal;

// The kinds of lists. Charsets are a default, and pairs behind it.
#[derive(Clone, Copy, PartialEq, Eq)]
enum Kind {
    Integers,
    Pairs,
    Charsets,
    Strings,
    Groups,
}

#[derive(Clone, Copy)]
enum Element<'a> {
    Integer(u64),
    Pair(u64, u64),
    Text(&'a [u8]),
    Group { count: u64, first: usize },
}

impl fmt::Display for Element<'_> {
    fn fmt<W: fmt::Write>(&self, f: &mut fmt::Formatter<W>) -> fmt::Result {
        match *self {
            Element::Integer(n) => write!(f, "{n}"),
            Element::Pair(first, second) => write!(f, "{first}:{second}"),
            Element::Text(text) => write!(f, "{}", Hex(text)),
            Element::Group { count, first } => write!(f, "{count}@{first}"),
        }
    }
}

fn read_kind(words: &mut Words<'_>) -> Result<Kind, Stop> {
    match &*words.word()? {
        b"integers" => Ok(Kind::Integers),
        b"pairs" => Ok(Kind::Pairs),
        b"charsets" => Ok(Kind::Charsets),
        b"strings" => Ok(Kind::Strings),
        b"groups" => Ok(Kind::Groups),
        _ => Err(Stop::Bad),
    }
}

// The item at a place, and where the next one starts.
fn next_item<'a>(
    kind: Kind,
    s: &'a [u8],
    at: usize,
) -> Result<Option<(Element<'a>, usize)>, Refusal> {
    Ok(match kind {
        Kind::Integers => Integers { at }
            .next(s)?
            .map(|(value, next)| (Element::Integer(value), next.at)),
        Kind::Pairs | Kind::Charsets => Pairs { at }.next(s)?.map(|((first, second), next)| (
            Element::Pair(first, second),
            next.at,
        )),
        Kind::Strings => Strings { at }.next(s)?.map(|(value, next)| (
            Element::Text(wire::part_of(s, value)),
            next.at,
        )),
        Kind::Groups => Groups { at }.next(s)?.map(|((count, first), next)| (
            Element::Group { count, first },
            next.at,
        )),
    })
}

// `list KIND HEX`. The turns are counted, as nothing here proves that the walk moves on.
pub(crate) fn list(mut words: Words<'_>, out: &mut impl Write) -> Answer {
    let kind = read_kind(&mut words)?;
    let bytes = words.bytes()?;
    words.end()?;
    let mut at = 0;
    if kind == Kind::Charsets {
        let (charset, pairs) = table_map::default_charset(bytes)?;
        write!(out, "default:{charset} ")?;
        at = pairs.at;
    }
    for _ in 0..u64::MAX {
        let Some((item, next)) = next_item(kind, bytes, at)? else {
            break;
        };
        write!(out, "{item} ")?;
        at = next;
    }
    write!(out, "end")?;
    Ok(())
}

// `item KIND HEX OFFSET`; not for charsets, whose items are of two kinds
pub(crate) fn item(mut words: Words<'_>, out: &mut impl Write) -> Answer {
    let kind = read_kind(&mut words)?;
    let bytes = words.bytes()?;
    let offset = words.number()?;
    words.end()?;
    if kind == Kind::Charsets {
        return Err(Stop::Bad);
    }
    match next_item(kind, bytes, offset)? {
        Some((item, next)) => write!(out, "ok {item} {next}")?,
        None => write!(out, "end")?,
    }
    Ok(())
}
