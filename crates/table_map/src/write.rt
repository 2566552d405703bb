// The event written, all or nothing, and its size (table_map_event.rs: MySerialize and BinlogStruct for TableMapEvent).
ghost use Rattle.std.specs.Prelude.{◌≡◌, ◌+◌, ◌≤◌, length};
ghost use Rattle.wire.specs.Number.{le_bytes};
ghost use Rattle.wire.specs.Packed.{packed_bytes};
ghost use Rattle.wire.specs.Stored.{answer_of, left_of};
ghost use Rattle.table_map.specs.Writes.{event_parts, name_bytes, is_event, write_event, event_size};
ghost use Rattle.table_map.specs.Inner.Writes.{lent, head_of, columns_of, PutAt};

use wire::refusal::{NO_ROOM, NOT_TAKEN};
use wire::{Refusal, bytes_for, packed_size, refuse, write_bytes, write_le, write_packed};

// Ids are below this.
const ID_END: u64 = 1 << 48;

// The most bytes a name has.
const NAME_MOST: usize = 255;

// How many bytes `write_event` writes of these parts, or why it writes none.
pub fn event_size(
    id: u64,
    flags: u16,
    database: &[u8],
    table: &[u8],
    types: &[u8],
    metadata: &[u8],
    bits: &[u8],
    optional: &[u8],
) -> Result<usize, Refusal>
    ensures { result
        ≡ event_size (event_parts id flags database.now table.now types.now metadata.now
        bits.now optional.now) }
{
    let parts = Parts {
        id,
        flags,
        database,
        table,
        types,
        metadata,
        bits,
        optional,
    };
    parts.size()
}

// Writes the event from the buffer's first byte on, with an id of 6 bytes.
pub fn write_event(
    id: u64,
    flags: u16,
    database: &[u8],
    table: &[u8],
    types: &[u8],
    metadata: &[u8],
    bits: &[u8],
    optional: &[u8],
    buf: &mut [u8],
) -> Result<usize, Refusal>
    ensures result_value { result
        ≡ answer_of (write_event (event_parts id flags database.now table.now types.now
        metadata.now bits.now optional.now) buf.old) }
    ensures buf_after { buf.new
        ≡ left_of (write_event (event_parts id flags database.now table.now types.now metadata.now
        bits.now optional.now) buf.old)
        buf.old }
{
    let parts = Parts {
        id,
        flags,
        database,
        table,
        types,
        metadata,
        bits,
        optional,
    };
    parts.write(buf)
}

// The parts of an event that is written. The two calls above keep them as parameters, as all who call them have it.
#[derive(Clone, Copy)]
struct Parts<'a> {
    id: u64,
    flags: u16,
    database: &'a [u8],
    table: &'a [u8],
    types: &'a [u8],
    metadata: &'a [u8],
    bits: &'a [u8],
    optional: &'a [u8],
}

impl<'a> Parts<'a> {
    // Whether the writer takes them.
    #[tactic(auto, using(wire::proofs::Rules::tests), unfolding(crate::specs::Writes::is_event))]
    fn are_taken(self) -> bool
        ensures { result ≡ is_event (lent self.entry) }
    {
        self.id < ID_END
            && self.database.len() <= NAME_MOST
            && self.table.len() <= NAME_MOST
            && self.bits.len() == bytes_for(self.types.len())
    }

    #[tactic(auto, using(crate::proofs::Puts::size_not_taken))]
    fn size(self) -> Result<usize, Refusal>
        ensures { result ≡ event_size (lent self.entry) }
    {
        if !self.are_taken() {
            return Err(refuse(NOT_TAKEN, 0));
        }
        let lengths = [
            self.database.len(),
            self.table.len(),
            packed_size(self.types.len() as u64),
            self.types.len(),
            packed_size(self.metadata.len() as u64),
            self.metadata.len(),
            self.bits.len(),
            self.optional.len(),
        ];
        // id and flags, and for each name a length byte and a zero byte
        let mut size: usize = 12;
        for n in &lengths {
            size = size.checked_add(*n).ok_or(refuse(NO_ROOM, 0))?;
        }
        Ok(size)
    }

    fn write(self, buf: &mut [u8]) -> Result<usize, Refusal>
        ensures result_value { result ≡ answer_of (write_event (lent self.entry) buf.old) }
        ensures buf_after { buf.new ≡ left_of (write_event (lent self.entry) buf.old) buf.old }
    {
        let size = self.size()?;
        if buf.len() < size {
            return Err(refuse(NO_ROOM, 0));
        }
        let behind = self.put_head(buf);
        Ok(self.put_columns(buf, behind))
    }

    // ---- these write from at on, where there is room, and hand back the place after what they wrote

    #[tactic(auto, using(crate::proofs::Puts::puts))]
    fn put_head(self, buf: &mut [u8]) -> usize
        requires { (length self.database.now ≤ 255) × (length self.table.now ≤ 255)
            × (12 + length self.database.now + length self.table.now ≤ length buf.old) }
        ensures { PutAt buf.old 0 (head_of (lent self.entry)) buf.new result }
    {
        let a = put_le(6, self.id, buf, 0);
        let b = put_le(2, u64::from(self.flags), buf, a);
        let c = put_name(self.database, buf, b);
        put_name(self.table, buf, c)
    }

    #[tactic(auto, using(crate::proofs::Puts::puts))]
    fn put_columns(self, buf: &mut [u8], at: usize) -> usize
        requires { at + length (columns_of (lent self)) ≤ length buf.old }
        ensures { PutAt buf.old at (columns_of (lent self.entry)) buf.new result }
    {
        let a = put_packed(self.types.len() as u64, buf, at);
        let b = put_bytes(self.types, buf, a);
        let c = put_packed(self.metadata.len() as u64, buf, b);
        let d = put_bytes(self.metadata, buf, c);
        let e = put_bytes(self.bits, buf, d);
        put_bytes(self.optional, buf, e)
    }
}

// ---- one for each of wire's writers, where there is room: none is refused, and each hands back the place after what it wrote

fn put_le(k: usize, v: u64, buf: &mut [u8], at: usize) -> usize
    requires { (k ≤ 8) × (at + k ≤ length buf.old) }
    ensures { PutAt buf.old at (le_bytes k v) buf.new result }
{
    write_le(k, v, buf, at).unwrap()
}

fn put_packed(v: u64, buf: &mut [u8], at: usize) -> usize
    requires { at + length (packed_bytes v) ≤ length buf.old }
    ensures { PutAt buf.old at (packed_bytes v) buf.new result }
{
    write_packed(v, buf, at).unwrap()
}

fn put_bytes(bytes: &[u8], buf: &mut [u8], at: usize) -> usize
    requires { at + length bytes.now ≤ length buf.old }
    ensures { PutAt buf.old at bytes.now buf.new result }
{
    write_bytes(bytes, buf, at).unwrap()
}

// A name behind its length, and a zero byte.
#[tactic(auto, using(crate::proofs::Puts::puts))]
fn put_name(name: &[u8], buf: &mut [u8], at: usize) -> usize
    requires { (length name.now ≤ 255) × (at + (length name.now + 2) ≤ length buf.old) }
    ensures { PutAt buf.old at (name_bytes name.now) buf.new result }
{
    let start = put_le(1, name.len() as u64, buf, at);
    let end = put_bytes(name, buf, start);
    put_le(1, 0, buf, end)
}
