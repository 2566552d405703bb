// The rows event under the record and the table id of its map.
ghost use Rattle.std.specs.Prelude.{◌≡◌};
ghost use Rattle.rows_event.specs.Events.{fitting, read_rows};

use crate::form::form_of;
use crate::parts::{RowsParts, read_parts};
use wire::refusal::OTHER_EVENT;
use wire::{Part, Refusal};

#[derive(Clone, Copy, Debug, PartialEq, Eq)]
pub struct Rows {
    pub flags: u16,
    // the extra data of the second edition, without its length
    pub extra: Option<Part>,
    // the presence bits of the images of a write or a delete, which have this set alone, and in updates of those before the change
    pub before: Part,
    // in updates, of the images after it
    pub after: Option<Part>,
    // where the images begin; they go to the event's end
    pub images: usize,
}

// The event, if it is one of the map's table and of the record's columns.
#[tactic(auto, using(wire::proofs::Rules::tests), unfolding(crate::specs::Events::fitting))]
fn fit(parts: RowsParts, table: u64, columns: usize) -> Result<Rows, Refusal>
    ensures { result ≡ fitting parts table columns }
{
    if parts.id != table {
        return Err(wire::refuse(OTHER_EVENT, 0));
    }
    let sets = parts.sets;
    if sets.count != columns as u64 {
        return Err(wire::refuse(OTHER_EVENT, parts.counted));
    }
    Ok(Rows {
        flags: parts.flags,
        extra: parts.extra,
        before: sets.before,
        after: sets.after,
        images: sets.images,
    })
}

// The rows event of the code `code` in the lent bytes, which are its body without header and checksum. `profile` is the record of its map,
// and `table` the map's table id.
#[tactic(auto, unfolding(crate::specs::Events::read_rows))]
pub fn read_rows(code: u64, profile: &[u8], table: u64, event: &[u8]) -> Result<Rows, Refusal>
    ensures { result ≡ read_rows code profile.now table event.now }
{
    let columns = record::read_record(profile)?;
    let form = form_of(code)?;
    let parts = read_parts(form, event)?;
    fit(parts, table, columns)
}
