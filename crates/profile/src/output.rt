// What is printed, put into a buffer. Each function says how much room it needs, and what it leaves is all of its text: nothing is cut.
// Buffer and place stay two parameters: `stored` and `wire::write_bytes` take them so.
ghost use Rattle.std.specs.Prelude.{◌≡◌, true, false, ◌++◌, ◌∷◌, [], ◌+◌, ◌-◌, ◌*◌, ◌/◌, ◌≤◌, ◌<◌, length};
ghost use Rattle.io.specs.Counts.{IsPrefixLen};
ghost use Rattle.wire.specs.Stored.{stored};
ghost use Rattle.record.specs.Records.{entries_in};
ghost use Rattle.profile.specs.Text.{decimal, behind, line, column_line, column_lines, refused_line, profiled, printed, is_refusal};

use record::Entry;
use value::Dialect;
use wire::Refusal;
use wire::refusal::NO_ROOM;

// The longest input that is taken.
pub(crate) const MOST_INPUT: usize = 65536;

// Room for the longest output: a line for each column, of six numbers of up to three digits, four for the place and five for the charset,
// with a byte behind each.
const LINE: usize = 32;

pub(crate) const MOST_OUTPUT: usize = LINE * record::MOST_COLUMNS;

// The post-header length of the events that are read.
const POST_HEADER: u8 = 8;

// How many bytes of the buffer are to be printed, and whether they are a refusal. Each text has both, and the
// contracts speak of the whole buffer: so this is no Result and no slice.
#[derive(Drop)]
pub(crate) struct Text {
    pub(crate) len: usize,
    pub(crate) is_refusal: bool,
}

fn put_text(text: &[u8], out: &mut [u8], at: usize) -> usize
    requires { at + length text.now ≤ length out.old }
    ensures value { result ≡ at + length text.now }
    ensures out_after { out.new ≡ stored text.now out.old at }
{
    let _ = wire::write_bytes(text, out, at);
    at + text.len()
}

// A number in decimal, and the byte behind it.
fn put_number(n: u64, end: u8, out: &mut [u8], at: usize) -> usize
    requires { at + length (decimal n ++ (end ∷ [])) ≤ length out.old }
    ensures value { result ≡ at + length (decimal n ++ (end ∷ [])) }
    ensures out_after { out.new ≡ stored (decimal n ++ (end ∷ [])) out.old at }
{
    let mut digits = [0u8; 20];
    let count = io::decimal(n, &mut digits);
    let next = put_text(&digits[..count], out, at);
    put_text(&[end], out, next)
}

// What stands behind a number with so many more to come.
#[tactic(auto, using(wire::proofs::Rules::tests), unfolding(crate::specs::Text::behind))]
fn end_of(left: usize) -> u8
    ensures { result ≡ behind left }
{
    if left == 0 { b'\n' } else { b' ' }
}

// Numbered by a place, as the invariant speaks of what is left from i on.
#[tactic(auto, using(crate::proofs::Lines::none_left, crate::proofs::Lines::line_end))]
fn put_line(numbers: &[u64], out: &mut [u8], at: usize) -> usize
    requires { at + length (line numbers.now) ≤ length out.old }
    ensures value { result ≡ at + length (line numbers.now) }
    ensures out_after { out.new ≡ stored (line numbers.now) out.old at }
{
    let mut next = at;
    for i in 0..numbers.len() {
        let end = end_of(numbers.len() - i - 1);
        next = put_number(numbers[i], end, out, next);
    }
    next
}

#[tactic(auto, using(crate::proofs::Lines::refusal_short, crate::proofs::Lines::both, io::proofs::Counting::prefix_len_of_le), unfolding(crate::specs::Text::refused_line))]
fn put_refusal(refusal: Refusal, out: &mut [u8]) -> Text
    requires { 64 ≤ length out.old }
    ensures value { result ≡ record { len = length (refused_line refusal); is_refusal = true } }
    ensures prefix_len { IsPrefixLen result.len out.new }
    ensures out_after { out.new ≡ stored (refused_line refusal) out.old 0 }
{
    let next = put_text(b"refused ", out, 0);
    let numbers = [u64::from(refusal.number), refusal.place as u64];
    let len = put_line(&numbers, out, next);
    Text {
        len,
        is_refusal: true,
    }
}

#[tactic(auto, using(crate::proofs::Lines::column_short), unfolding(crate::specs::Text::column_line))]
fn put_column(place: usize, entry: Entry, out: &mut [u8], at: usize) -> usize
    requires place_bound { place < 10000 }
    requires at_in_bounds { at + 32 ≤ length out.old }
    ensures value { result ≡ at + length (column_line place entry) }
    ensures upper_bound { result ≤ at + 32 }
    ensures out_after { out.new ≡ stored (column_line place entry) out.old at }
{
    let numbers = [
        place as u64,
        u64::from(entry.real),
        u64::from(entry.flags),
        u64::from(entry.m0),
        u64::from(entry.m1),
        u64::from(entry.charset),
    ];
    put_line(&numbers, out, at)
}

// A line for each of the first n columns of a record.
#[tactic(auto, using(crate::proofs::Lines::none_left, crate::proofs::Lines::columns_end))]
fn put_columns(profile: &[u8], n: usize, out: &mut [u8]) -> Text
    requires n_bound { n < 10000 }
    requires n_in_bounds { 32 * n ≤ length out.old }
    ensures value { result ≡ record { len = length (column_lines 0 (entries_in n profile.now 0)); is_refusal = false } }
    ensures prefix_len { IsPrefixLen result.len out.new }
    ensures out_after { out.new ≡ stored (column_lines 0 (entries_in n profile.now 0)) out.old 0 }
{
    let mut len = 0;
    for j in 0..n {
        len = put_column(j, record::entry_in(profile, j), out, len);
    }
    Text {
        len,
        is_refusal: false,
    }
}

// How many columns a record of so many bytes has.
fn columns_of(size: usize) -> usize
    ensures { result ≡ (size - 6) / 6 }
{
    size.saturating_sub(6) / 6
}

// All that is printed of an input.
pub(crate) fn put_profile(event: &[u8], dialect: Dialect, out: &mut [u8]) -> Text
    requires { 131072 ≤ length out.old }
    ensures value { result
        ≡ record {
          len = length (printed (profiled dialect event.now));
          is_refusal = is_refusal (profiled dialect event.now);
        } }
    ensures prefix_len { IsPrefixLen result.len out.new }
    ensures out_after { out.new ≡ stored (printed (profiled dialect event.now)) out.old 0 }
{
    if MOST_INPUT < event.len() {
        return put_refusal(wire::refuse(NO_ROOM, 0), out);
    }
    let mut profile = [0u8; record::MOST_BYTES];
    match map_check::check(event, POST_HEADER, dialect, &mut profile) {
        Ok(len) => put_columns(&profile[..len], columns_of(len), out),
        Err(refusal) => put_refusal(refusal, out),
    }
}
