// The optional fields of a map, one by one.
ghost use Rattle.std.specs.Prelude.{◌≡◌, None, get_or};
ghost use Rattle.wire.specs.Outcome.{ok, after};
ghost use Rattle.map_check.specs.Fields.{rival_of, stands_given, keep_fields, first_of};
ghost use Rattle.map_check.specs.Inner.Making.{kept_by};

use crate::contents::contents_full;
use crate::facts::{Charsets, Facts, KeptFields};
use crate::rank::{Ranks, TablePlace};
use table_map::Fields;
use table_map::field_type::{
    COLUMN_CHARSET, COLUMN_VISIBILITY, DEFAULT_CHARSET, ENUM_AND_SET_COLUMN_CHARSET,
    ENUM_AND_SET_DEFAULT_CHARSET, PRIMARY_KEY_WITH_PREFIX, SIGNEDNESS, SIMPLE_PRIMARY_KEY,
};
use wire::refusal::BAD_FIELD;
use wire::{Part, Refusal, refuse};

// The type that may not stand beside one: 0 and no Option, as the definition `rival_of` has it; there is no type 0, so places[0] is never
// filled.
#[tactic(auto, using(wire::proofs::Rules::tests), unfolding(crate::specs::Fields::rival_of))]
fn rival_of(kind: u8) -> u8
    ensures { result ≡ rival_of kind }
{
    match kind {
        DEFAULT_CHARSET => COLUMN_CHARSET,
        COLUMN_CHARSET => DEFAULT_CHARSET,
        ENUM_AND_SET_DEFAULT_CHARSET => ENUM_AND_SET_COLUMN_CHARSET,
        ENUM_AND_SET_COLUMN_CHARSET => ENUM_AND_SET_DEFAULT_CHARSET,
        SIMPLE_PRIMARY_KEY => PRIMARY_KEY_WITH_PREFIX,
        PRIMARY_KEY_WITH_PREFIX => SIMPLE_PRIMARY_KEY,
        _ => 0,
    }
}

// Whether a field may stand, given whether its type and its rival stood before it.
#[tactic(auto, unfolding(crate::specs::Fields::stands_given))]
fn stands_given(
    event: &[u8],
    sizes: Ranks,
    columns: TablePlace,
    twice: bool,
    rivalled: bool,
    kind: u8,
    value: Part,
) -> bool
    ensures { result ≡ stands_given sizes columns.0 event.now twice rivalled (kind, value) }
{
    !twice && !rivalled && contents_full(sizes, columns, kind, wire::part_of(event, value))
}

// What the check goes on with, of the fields that stood: each is looked up by its type.
fn kept_of(bits: Part, places: [Option<Part>; 14]) -> KeptFields
    ensures { result ≡ kept_by bits (λ k. get_or places k None) }
{
    let of = |kind: u8| places[usize::from(kind)];
    let characters = Charsets {
        default: of(DEFAULT_CHARSET),
        list: of(COLUMN_CHARSET),
    };
    let choices = Charsets {
        default: of(ENUM_AND_SET_DEFAULT_CHARSET),
        list: of(ENUM_AND_SET_COLUMN_CHARSET),
    };
    let facts = Facts {
        bits,
        signs: of(SIGNEDNESS),
        visibility: of(COLUMN_VISIBILITY),
        characters,
        choices,
    };
    KeptFields {
        simple: of(SIMPLE_PRIMARY_KEY),
        prefixed: of(PRIMARY_KEY_WITH_PREFIX),
        facts,
    }
}

// All fields from a cursor on, contents in full, in one walk that notes where each stands. A type is below 14, and so is its rival.
pub(crate) fn keep_fields(
    event: &[u8],
    fields: Fields,
    sizes: Ranks,
    bits: Part,
) -> Result<KeptFields, Refusal>
    ensures { result ≡ after (keep_fields sizes fields event.now) (λ fs. ok (kept_by bits (λ k. first_of k fs))) }
{
    let columns = TablePlace(fields.columns);
    let mut cursor = fields;
    let mut places: [Option<Part>; 14] = [None; 14];
    while let Some(((kind, value), next)) = cursor.next(event)? {
        let k = usize::from(kind);
        let rival = usize::from(rival_of(kind));
        let twice = places[k].is_some();
        let rivalled = places[rival].is_some();
        if !stands_given(event, sizes, columns, twice, rivalled, kind, value) {
            return Err(refuse(BAD_FIELD, cursor.at));
        }
        places[k] = Some(value);
        cursor = next;
    }
    Ok(kept_of(bits, places))
}
