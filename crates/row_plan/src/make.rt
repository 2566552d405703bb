// A plan made of a record and presence bits.
ghost use Rattle.std.specs.Prelude.{◌≡◌, ◌∷◌, ◌≤◌, ◌+◌, ◌*◌, length};
ghost use Rattle.wire.specs.Number.{le_bytes};
ghost use Rattle.wire.specs.Stored.{stored, answer_of, left_of};
ghost use Rattle.record.specs.Records.{count_of};
ghost use Rattle.image.specs.Present.{present};
ghost use Rattle.row_plan.specs.Plan.{plan_of, make_plan};

use wire::Refusal;
use wire::refusal::NO_ROOM;

// Bytes of the plan for each present column: its op, and its place in the table in two bytes.
pub(crate) const ITEM_BYTES: usize = 3;

// One item, where there is room for it.
#[tactic(auto, using(wire::proofs::Stores::part_stored), unfolding(wire::specs::Number::le_bytes))]
fn put_item(op: u8, column: usize, plan: &mut [u8], at: usize)
    requires { at + 3 ≤ length plan.old }
    ensures { plan.new ≡ stored (op ∷ le_bytes 2 column) plan.old at }
{
    let [low, high, ..] = column.to_le_bytes();
    plan[at..at + ITEM_BYTES].copy_from_slice(&[op, low, high]);
}

// The plan stored at the start of a buffer that has room for it.
#[tactic(auto, using(crate::proofs::Puts::begin, crate::proofs::Puts::skip, crate::proofs::Puts::has_room, crate::proofs::Puts::put, crate::proofs::Puts::done), unfolding(image::specs::Present::shape_at))]
fn put_plan(profile: &[u8], presence: &[u8], columns: usize, plan: &mut [u8])
    requires { (columns ≡ count_of profile.now) × (3 * length (present profile.now presence.now) ≤ length plan.old) }
    ensures { plan.new ≡ stored (plan_of profile.now presence.now) plan.old 0 }
{
    // The `for` counts all columns, and the place moves with present ones alone.
    let mut at: usize = 0;
    for column in 0..columns {
        if !wire::bit_lsb0(presence, column) {
            continue;
        }
        let stored = record::column_of(record::entry_in(profile, column));
        put_item(value::op_of(value::shape_of(stored)), column, plan, at);
        at += ITEM_BYTES;
    }
}

// Makes the plan of a record and presence bits at the start of a lent buffer: refusals 11 and 12, then 8. It answers how many bytes the plan
// has, and how many items, one for each present column.
#[tactic(auto, using(crate::proofs::Makes::make_refused, crate::proofs::Makes::make_full, crate::proofs::Makes::make_done, crate::proofs::Makes::columns_are, crate::proofs::Makes::items_are, crate::proofs::Makes::few_items))]
pub fn make_plan(
    profile: &[u8],
    presence: &[u8],
    plan: &mut [u8],
) -> Result<(usize, usize), Refusal>
    ensures result_value { result ≡ answer_of (make_plan profile.now presence.now plan.old) }
    ensures plan_after { plan.new
        ≡ left_of (make_plan profile.now presence.now plan.old) plan.old }
{
    let head = image::read_head(profile, presence)?;
    let items = head.present;
    let len = ITEM_BYTES * items;
    if plan.len() < len {
        return Err(wire::refuse(NO_ROOM, 0));
    }
    put_plan(profile, presence, head.columns, plan);
    Ok((len, items))
}
