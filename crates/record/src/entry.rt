// What a record says of one column: six bytes.
ghost use Rattle.std.specs.Prelude.{◌≡◌};
ghost use Rattle.wire.specs.Stored.{store, answer_of, left_of};
ghost use Rattle.record.specs.Entries.{column_of, flags_hold, charset_holds, entry_holds, entry_bytes};

use value::Column;
use wire::Refusal;

#[derive(Clone, Copy, Debug, PartialEq, Eq)]
pub struct Entry {
    // the real type
    pub real: u8,
    // 1 unsigned, 2 nullable, 4 signedness known, 8 visible; a number, as it is a byte of the record
    pub flags: u8,
    pub m0: u8,
    pub m1: u8,
    // 0 if none is given; a number and no Option, as it is two bytes of the record
    pub charset: u16,
}

// The column, as its values are stored. A function and no From, since it leaves out the charset and most flags.
pub fn column_of(entry: Entry) -> Column
    ensures { result ≡ column_of entry }
{
    Column {
        real: entry.real,
        m0: entry.m0,
        m1: entry.m1,
        unsigned: entry.flags % 2 == 1,
    }
}

// Flags 1 and 4 stand on numeric columns alone, and 1 only with 4; there is none above 8.
#[tactic(auto, using(wire::proofs::Rules::tests), unfolding(crate::specs::Entries::flags_hold))]
fn flags_hold(entry: Entry) -> bool
    ensures { result ≡ flags_hold entry }
{
    let unsigned = entry.flags % 2;
    let known = entry.flags / 4 % 2;
    if 16 <= entry.flags {
        return false;
    }
    if value::is_numeric(entry.real) {
        return unsigned <= known;
    }
    unsigned == 0 && known == 0
}

// Character, ENUM and SET columns alone have a charset.
#[tactic(auto, unfolding(crate::specs::Entries::charset_holds))]
fn charset_holds(entry: Entry) -> bool
    ensures { result ≡ charset_holds entry }
{
    value::is_character(entry.real) || value::is_enum_or_set(entry.real) || entry.charset == 0
}

// Whether a record may have the entry.
#[tactic(auto, unfolding(crate::specs::Entries::entry_holds))]
pub fn entry_holds(entry: Entry) -> bool
    ensures { result ≡ entry_holds entry }
{
    value::is_accepted(column_of(entry)) && flags_hold(entry) && charset_holds(entry)
}

// Writes the entry's six bytes from at on.
#[tactic(auto, unfolding(crate::specs::Entries::entry_bytes, wire::specs::Number::le_bytes))]
pub fn write_entry(entry: Entry, buf: &mut [u8], at: usize) -> Result<usize, Refusal>
    ensures result_value { result ≡ answer_of (store (entry_bytes entry) buf.old at) }
    ensures buf_after { buf.new ≡ left_of (store (entry_bytes entry) buf.old at) buf.old }
{
    let [low, high] = entry.charset.to_le_bytes();
    let bytes = [entry.real, entry.flags, entry.m0, entry.m1, low, high];
    wire::write_bytes(&bytes, buf, at)
}
