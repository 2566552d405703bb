// The names of columns (table_map_event.rs: ColumnName).
ghost use Rattle.std.specs.Prelude.{◌≡◌};
ghost use Rattle.map_check.specs.Fields.{walk_fields};
ghost use Rattle.map_check.specs.Names.{list_of, string_at, column_name, name_in, names_in, names_field};

use crate::rank::TablePlace;
use table_map::field_type::COLUMN_NAME;
use table_map::{Fields, next_item, read_event};
use value::Dialect;
use wire::refusal::NO_COLUMN;
use wire::{Part, Refusal, part_of, refuse};

// Where a column's name stands: in the map's names if there are any, else in the operator's list.
#[tactic(auto, unfolding(crate::specs::Names::column_name))]
pub fn column_name<'a>(
    names: &'a [u8],
    operator: &'a [u8],
    column: TablePlace,
) -> Result<Part, Refusal>
    ensures { result ≡ column_name names.now operator.now column }
{
    string_at(list_of(names, operator), column.0)
}

// Its bytes, none where it is refused.
pub fn name_part<'a>(names: &'a [u8], operator: &'a [u8], column: TablePlace) -> &'a [u8]
    ensures { result.now ≡ name_in (list_of names.now operator.now)
        (column_name names.now operator.now column) }
{
    match column_name(names, operator, column) {
        Ok(part) => part_of(list_of(names, operator), part),
        Err(_) => &names[..0],
    }
}

// The names field of a map: where its value stands in the event, which may be empty; None if the map has no such field; or the refusal of
// the event or of a field that comes before it. A map without names may be given the operator's; one that is refused may not, as it may be
// of another dialect.
pub fn names_field(event: &[u8], post_header: u8, dialect: Dialect) -> Result<Option<Part>, Refusal>
    ensures { result ≡ names_field dialect event.now post_header }
{
    let e = read_event(event, post_header)?;
    let fields = Fields::new(dialect, part_of(event, e.types), e.optional.start);
    find_names(event, fields)
}

// The same from a cursor on. It is read up to the names and no further, as a list of names is read up to the name.
#[tactic(auto, using(crate::proofs::NameLaws::NameLooks::names_looks))]
fn find_names(event: &[u8], fields: Fields) -> Result<Option<Part>, Refusal>
    ensures { result ≡ names_in (walk_fields fields event.now) }
{
    let mut cursor = fields;
    // a walk: each field tells where the next one starts
    while let Some(((kind, value), next)) = cursor.next(event)? {
        if kind == COLUMN_NAME {
            return Ok(Some(value));
        }
        cursor = next;
    }
    Ok(None)
}

// The list that is looked at.
#[tactic(auto, using(wire::proofs::Rules::tests), unfolding(crate::specs::Names::list_of))]
fn list_of<'a>(names: &'a [u8], operator: &'a [u8]) -> &'a [u8]
    ensures { result.now ≡ list_of names.now operator.now }
{
    if names.is_empty() { operator } else { names }
}

// A string of a list, read up to it and no further: the number asked is believed only as far as the list goes.
#[tactic(auto, using(wire::proofs::Rules::tests, crate::proofs::NameLaws::NameLooks::string_looks))]
fn string_at(list: &[u8], asked: usize) -> Result<Part, Refusal>
    ensures { result ≡ string_at asked asked list.now 0 }
{
    let mut at: usize = 0;
    // a walk: the number asked counts down, and the list may end first
    let mut left = asked;
    while let Some((value, next)) = next_item::<Part>(list, at)? {
        if left == 0 {
            return Ok(value);
        }
        left -= 1;
        at = next;
    }
    Err(refuse(NO_COLUMN, asked))
}
