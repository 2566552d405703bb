// Room for one image: the most bytes that an image under a record and presence bits can take, so that a buffer can be lent before the row
// is known.
ghost use Rattle.std.specs.Prelude.{◌≡◌, cond, ◌≤◌};
ghost use Rattle.wire.specs.Bits.{bit_lsb0};
ghost use Rattle.value.specs.Shapes.{most_of};
ghost use Rattle.image.specs.Present.{shape_at};
ghost use Rattle.image.specs.Room.{read_room};

use crate::cursor::read_head;
use crate::step::column_in;
use wire::Refusal;

// What a column adds: its largest value if it is present, else nothing.
#[tactic(auto, using(crate::proofs::RoomLaws::Adds::shape_few), unfolding(crate::specs::Present::shape_at))]
fn column_room(profile: &[u8], presence: &[u8], column: usize) -> u64
    ensures { (result ≡ cond (bit_lsb0 presence.now column) (most_of (shape_at profile.now column)) 0)
        × (result ≤ 4294967299) }
{
    if wire::bit_lsb0(presence, column) {
        return value::most_size(column_in(profile, column));
    }
    0
}

// Null bits, and the largest value of each present column. The record is tested once, so it costs as much as the record has columns.
#[tactic(auto, unfolding(crate::specs::Room::read_room))]
pub fn image_room(profile: &[u8], presence: &[u8]) -> Result<u64, Refusal>
    ensures { result ≡ read_room profile.now presence.now }
{
    let head = read_head(profile, presence)?;
    let mut bytes = head.nulls as u64;
    for column in 0..head.columns {
        bytes += column_room(profile, presence, column);
    }
    Ok(bytes)
}
