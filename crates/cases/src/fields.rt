// The kinds `fields`, `fields-as` and `field`: the optional fields.
use crate::stop::Answer;
use crate::words::Words;
use std::io::Write;
use table_map::Fields;
use value::Dialect;

// `TYPES OPTIONAL`: `TYPE@START+LENGTH` for each field, then `end`. The turns are counted, as nothing here
// proves that the walk moves on.
fn tell_fields(dialect: Dialect, mut words: Words<'_>, out: &mut impl Write) -> Answer {
    let types = words.bytes()?;
    let optional = words.bytes()?;
    words.end()?;
    let mut fields = Fields::new(dialect, types, 0);
    for _ in 0..u64::MAX {
        let Some(((kind, value), next)) = fields.next(optional)? else {
            break;
        };
        write!(out, "{kind}@{}+{} ", value.start, value.len)?;
        fields = next;
    }
    write!(out, "end")?;
    Ok(())
}

// `fields TYPES OPTIONAL`
pub(crate) fn fields(words: Words<'_>, out: &mut impl Write) -> Answer {
    tell_fields(Dialect::Document, words, out)
}

// `fields-as DIALECT TYPES OPTIONAL`
pub(crate) fn fields_as(mut words: Words<'_>, out: &mut impl Write) -> Answer {
    tell_fields(words.dialect()?, words, out)
}

// `field DIALECT TYPES OPTIONAL OFFSET`
pub(crate) fn field(mut words: Words<'_>, out: &mut impl Write) -> Answer {
    let dialect = words.dialect()?;
    let types = words.bytes()?;
    let optional = words.bytes()?;
    let offset = words.number()?;
    words.end()?;
    match Fields::new(dialect, types, offset).next(optional)? {
        Some(((kind, value), next)) => {
            write!(out, "ok {kind} {} {} {}", value.start, value.len, next.at)?
        }
        None => write!(out, "end")?,
    }
    Ok(())
}
