// The check of a map: what it passes, a row can rely on.
ghost use Rattle.std.specs.Prelude.{◌≡◌};
ghost use Rattle.wire.specs.Stored.{answer_of, left_of};
ghost use Rattle.map_check.specs.Check.{check_event, written, check};

use crate::column::take_columns;
use crate::entries::Passed;
use crate::field::keep_fields;
use crate::keys::keys_checked;
use record::MOST_COLUMNS;
use table_map::{Event, Fields, read_event};
use value::Dialect;
use wire::refusal::TOO_MANY_COLUMNS;
use wire::{Refusal, part_of, refuse};

// An event that was read: its columns, its fields, its keys, and room for its record.
fn check_event(dialect: Dialect, event: &[u8], e: Event, buf: &mut [u8]) -> Result<usize, Refusal>
    ensures result_value { result ≡ answer_of (written (check_event dialect event.now e) buf.old) }
    ensures buf_after { buf.new
        ≡ left_of (written (check_event dialect event.now e) buf.old) buf.old }
{
    let types = part_of(event, e.types);
    let metadata = part_of(event, e.metadata);
    if MOST_COLUMNS < types.len() {
        return Err(refuse(TOO_MANY_COLUMNS, 0));
    }
    let sizes = take_columns(dialect, types, metadata)?;
    let fields = Fields::new(dialect, types, e.optional.start);
    let kept = keep_fields(event, fields, sizes, e.bits)?;
    keys_checked(event, kept.simple, kept.prefixed)?;
    let passed = Passed {
        dialect,
        event,
        types,
        metadata,
        facts: kept.facts,
    };
    passed.write_record(buf)
}

// Checks a map and writes its record at the buffer's start; the answer is the record's length. `event` is what follows the event's header
// of 19 bytes, and `post_header` is the post-header length that the format description gives for table maps.
pub fn check(
    event: &[u8],
    post_header: u8,
    dialect: Dialect,
    buf: &mut [u8],
) -> Result<usize, Refusal>
    ensures result_value { result ≡ answer_of (check dialect event.now post_header buf.old) }
    ensures buf_after { buf.new ≡ left_of (check dialect event.now post_header buf.old) buf.old }
{
    let e = read_event(event, post_header)?;
    check_event(dialect, event, e, buf)
}
