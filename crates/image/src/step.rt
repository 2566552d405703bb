// One step over an image: the next present column from a cursor on.
ghost use Rattle.std.specs.Prelude.{◌≡◌};
ghost use Rattle.record.specs.Entries.{column_of};
ghost use Rattle.record.specs.Records.{entry_in};
ghost use Rattle.image.specs.Split.{step_over, slots_at, step_from};
ghost use Rattle.image.specs.Inner.Steps.{Placed, without_rank, inner_told, Ranked};

use crate::cursor::{Cursor, read_head};
use crate::presence::{count_bits, first_set};
use value::{Column, Value};
use wire::Refusal;
use wire::refusal::{IMAGE_SHORT, NO_COLUMN};

// What stands at a cursor: NULL or a value, with its column and the next cursor; or the end, with the bytes used. C is the cursor: of a walk
// under a record, of a loop over one, which knows its rank, or of a walk by a plan.
#[derive(Clone, Copy, Debug, PartialEq, Eq)]
pub enum Step<C> {
    Null {
        column: usize,
        next: C,
    },
    Value {
        column: usize,
        value: Value,
        next: C,
    },
    End {
        used: usize,
    },
}

// A cursor that knows its rank: how many present columns stand before its own, which is the number of the next one's null bit. A loop over
// the steps of a row need not count them again; the public step, which believes no cursor, counts them each time.
#[derive(Clone, Copy, Debug, PartialEq, Eq)]
pub(crate) struct InnerCursor {
    pub cursor: Cursor,
    pub rank: usize,
}

// How the record says that a column is stored.
pub(crate) fn column_in(profile: &[u8], column: usize) -> Column
    ensures { result ≡ column_of (entry_in profile.now column) }
{
    record::column_of(record::entry_in(profile, column))
}

// A step on a record and presence bits that were tested.
#[tactic(auto, using(crate::proofs::StepLaws::Steps::stepping))]
pub(crate) fn step_inner(
    profile: &[u8],
    presence: &[u8],
    image: &[u8],
    columns: usize,
    at: InnerCursor,
) -> Result<Step<InnerCursor>, Refusal>
    requires { Placed profile.now presence.now columns at }
    ensures result_value { inner_told result
        ≡ step_over (slots_at profile.now presence.now image.now at.cursor.column) image.now
        at.cursor.offset }
    ensures ranked { Ranked presence.now result }
{
    let offset = at.cursor.offset;
    let column = first_set(presence, at.cursor.column, columns);
    if column == columns {
        return Ok(Step::End { used: offset });
    }
    let behind = column + 1;
    let rank = at.rank + 1;
    let next = |offset| InnerCursor {
        cursor: Cursor {
            column: behind,
            offset,
        },
        rank,
    };
    if wire::bit_lsb0(image, at.rank) {
        return Ok(Step::Null {
            column,
            next: next(offset),
        });
    }
    let (value, offset) = value::read_value(column_in(profile, column), image, offset, column)?;
    Ok(Step::Value {
        column,
        value,
        next: next(offset),
    })
}

// The step without ranks. A function and no From: only `Cursor::step` turns one step into the other.
fn without_rank(step: Step<InnerCursor>) -> Step<Cursor>
    ensures { result ≡ without_rank step }
{
    match step {
        Step::Null { column, next } => Step::Null {
            column,
            next: next.cursor,
        },
        Step::Value {
            column,
            value,
            next,
        } => Step::Value {
            column,
            value,
            next: next.cursor,
        },
        Step::End { used } => Step::End { used },
    }
}

impl Cursor {
    // The next present column from this cursor on. A made-up cursor obeys the same rule.
    #[tactic(auto, using(wire::proofs::Rules::tests, crate::proofs::CursorLaws::Heads::placed, crate::proofs::StepLaws::Steps::step_goes), unfolding(crate::specs::Split::step_from, crate::specs::Split::slots_left))]
    pub fn step(
        self,
        profile: &[u8],
        presence: &[u8],
        image: &[u8],
    ) -> Result<Step<Cursor>, Refusal>
        ensures { result ≡ step_from profile.now presence.now image.now self }
    {
        let head = read_head(profile, presence)?;
        if head.columns < self.column {
            return Err(wire::refuse(NO_COLUMN, self.column));
        }
        if image.len() < head.nulls {
            return Err(wire::refuse(IMAGE_SHORT, 0));
        }
        if image.len() < self.offset {
            return Err(wire::refuse(IMAGE_SHORT, self.column));
        }
        let at = InnerCursor {
            cursor: self,
            rank: count_bits(presence, self.column),
        };
        let step = step_inner(profile, presence, image, head.columns, at)?;
        Ok(without_rank(step))
    }
}
