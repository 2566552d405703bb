// The optional fields, one after the other (table_map_event.rs: OptionalMetadataIter).
ghost use Rattle.std.specs.Prelude.{◌≡◌, length};
ghost use Rattle.table_map.specs.Fields.{count_sign_bits, is_field, contents_hold, cut_field, judge_field, field_step};

use crate::field_type::{
    COLUMN_VISIBILITY, DEFAULT_CHARSET, ENUM_AND_SET_DEFAULT_CHARSET, SIGNEDNESS,
    VECTOR_DIMENSIONALITY,
};
use crate::part::long_part;
use value::{Dialect, has_sign_bit};
use wire::refusal::{BAD_FIELD, UNKNOWN_FIELD};
use wire::{Part, Refusal, bytes_for, part_of, read_packed, refuse, within};

// Where a walk over the optional bytes stands, with what it needs of the map, counted once.
#[derive(Clone, Copy, Debug, PartialEq, Eq)]
pub struct Fields {
    pub at: usize,
    // how many columns have a signedness bit
    pub numeric: usize,
    // how many columns there are
    pub columns: usize,
}

impl Fields {
    // At a place of the optional bytes of a map with these type bytes.
    pub fn new(dialect: Dialect, types: &[u8], at: usize) -> Fields
        ensures { result ≡ record
            { at = at; numeric = count_sign_bits dialect types.now; columns = length types.now } }
    {
        Fields {
            at,
            numeric: count_sign_bits(dialect, types),
            columns: types.len(),
        }
    }

    // The field at the cursor, its type byte and its value, and the cursor behind it: cut out, then judged.
    #[tactic(auto, using(crate::proofs::Optional::field_steps))]
    pub fn next(self, optional: &[u8]) -> Result<Option<((u8, Part), Fields)>, Refusal>
        ensures { result ≡ field_step self optional.now }
    {
        if self.at == optional.len() {
            return Ok(None);
        }
        let ((kind, value), at) = cut_field(optional, self.at)?;
        self.judge(optional, kind, value)?;
        Ok(Some(((kind, value), Fields { at, ..self })))
    }

    // Whether a field that was cut out at the cursor holds: its type is known, and its contents are as the walk asks.
    #[tactic(auto, unfolding(crate::specs::Fields::judge_field))]
    pub fn judge(self, optional: &[u8], kind: u8, value: Part) -> Result<(), Refusal>
        ensures { result ≡ judge_field self.numeric self.columns optional.now self.at (kind, value) }
    {
        if !is_field(kind) {
            return Err(refuse(UNKNOWN_FIELD, self.at));
        }
        if !contents_hold(self.numeric, self.columns, kind, part_of(optional, value)) {
            return Err(refuse(BAD_FIELD, self.at));
        }
        Ok(())
    }
}

// Cuts out the field at a place, whatever its type and its contents are: its type byte, its value, and the place after it.
#[tactic(auto, unfolding(crate::specs::Fields::cut_field))]
pub fn cut_field(optional: &[u8], at: usize) -> Result<((u8, Part), usize), Refusal>
    ensures { result ≡ cut_field optional.now at }
{
    let behind = within(optional, at, 1, at)?;
    let (value, next) = long_part(optional, behind)?;
    Ok(((optional[at], value), next))
}

// How many of the columns have a signedness bit.
#[tactic(auto, using(crate::proofs::Optional::signed_counted))]
fn count_sign_bits(dialect: Dialect, types: &[u8]) -> usize
    ensures { result ≡ count_sign_bits dialect types.now }
{
    types
        .iter()
        .filter(|kind| has_sign_bit(dialect, **kind))
        .count()
}

// Whether there is such a type of field.
fn is_field(kind: u8) -> bool
    ensures { result ≡ is_field kind }
{
    matches!(kind, SIGNEDNESS..=VECTOR_DIMENSIONALITY)
}

// Whether the contents of a field are as the walk asks: 1 and 12 are bits of columns, 2 and 10 start with a default charset.
#[tactic(auto, unfolding(crate::specs::Fields::contents_hold))]
fn contents_hold(numeric: usize, columns: usize, kind: u8, value: &[u8]) -> bool
    ensures { result ≡ contents_hold numeric columns kind value.now }
{
    match kind {
        SIGNEDNESS => value.len() == bytes_for(numeric),
        COLUMN_VISIBILITY => value.len() == bytes_for(columns),
        DEFAULT_CHARSET | ENUM_AND_SET_DEFAULT_CHARSET => read_packed(value, 0).is_ok(),
        _ => true,
    }
}
