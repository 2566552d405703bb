// What the event's code says of its form.
ghost use Rattle.std.specs.Prelude.{◌≡◌};
ghost use Rattle.rows_event.specs.Events.{form_of};

use wire::Refusal;
use wire::refusal::OTHER_EVENT;

// Write, update and delete, in the first edition and in the second. Codes stay numbers: C hands them over, and each says a form at once.
const WRITE_ROWS_V1: u64 = 23;

const UPDATE_ROWS_V1: u64 = 24;

const DELETE_ROWS_V1: u64 = 25;

const WRITE_ROWS: u64 = 30;

const UPDATE_ROWS: u64 = 31;

const DELETE_ROWS: u64 = 32;

// The second edition has extra data; updates have a second set of presence bits.
#[derive(Clone, Copy)]
pub(crate) struct Form {
    pub extra: bool,
    pub second: bool,
}

#[tactic(auto, using(wire::proofs::Rules::tests), unfolding(crate::specs::Events::form_of))]
pub(crate) fn form_of(code: u64) -> Result<Form, Refusal>
    ensures { result ≡ form_of code }
{
    let (extra, second) = match code {
        WRITE_ROWS_V1 | DELETE_ROWS_V1 => (false, false),
        UPDATE_ROWS_V1 => (false, true),
        WRITE_ROWS | DELETE_ROWS => (true, false),
        UPDATE_ROWS => (true, true),
        _ => return Err(wire::refuse(OTHER_EVENT, 0)),
    };
    Ok(Form { extra, second })
}
