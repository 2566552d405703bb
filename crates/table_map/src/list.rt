// What stands in optional fields: integers, pairs, strings and groups of strings (table_map_event.rs: IterCharsets, IterNonDefault,
// IterNames, IterSetStrValues and their like), and bits. A cursor is an offset: at the length the list has ended; past it there is no first
// byte, and that is refused.
ghost use Rattle.std.specs.Prelude.{◌≡◌, ℕ};
ghost use Rattle.wire.specs.Bits.{bit_msb0};
ghost use Rattle.table_map.specs.Lists.{Rule, step, integer_item, pair_item, string_item, group_item, strings, default_charset};

use crate::part::long_part;
use std::marker::Model;
use wire::refusal::SHORT;
use wire::{Part, Refusal, read_packed};

// What lists are made of. Pairs and groups are bare tuples: the definitions have ℕ × ℕ for them.
pub trait ListItem: Copy {
    // how an item is read at a place
    ghost rule: { Rule Self };

    // The item at `at`, and the place after it.
    fn read(s: &[u8], at: usize) -> Result<(Self, usize), Refusal>
        ensures { result ≡ rule s.now at };
}

// An integer of fields 3, 7, 8, 11 and 13.
impl ListItem for u64 {
    ghost rule = { integer_item };

    fn read(s: &[u8], at: usize) -> Result<(u64, usize), Refusal> {
        read_packed(s, at)
    }
}

// A pair: in field 9 a column and the length of its prefix; in fields 2 and 10, behind the default, a rank and its charset.
impl ListItem for (u64, u64) {
    ghost rule = { pair_item };

    #[tactic(auto, unfolding(crate::specs::Lists::pair_item))]
    fn read(s: &[u8], at: usize) -> Result<((u64, u64), usize), Refusal> {
        let (first, middle) = read_packed(s, at)?;
        let (second, next) = read_packed(s, middle)?;
        Ok(((first, second), next))
    }
}

// A string of field 4.
impl ListItem for Part {
    ghost rule = { string_item };

    fn read(s: &[u8], at: usize) -> Result<(Part, usize), Refusal> {
        long_part(s, at)
    }
}

// A group of strings, of fields 5 and 6, which is told by how many it has and where the first stands.
impl ListItem for (u64, usize) {
    ghost rule = { group_item };

    #[tactic(auto, unfolding(crate::specs::Lists::group_item))]
    fn read(s: &[u8], at: usize) -> Result<((u64, usize), usize), Refusal> {
        let (count, first) = read_packed(s, at)?;
        let next = skip_strings(s, first, count)?;
        Ok(((count, first), next))
    }
}

// Reads n strings, one after the other, up to the first that is not there: n is believed only as far as the bytes go.
#[tactic(auto, using(crate::proofs::Items::string_turns))]
fn skip_strings(s: &[u8], at: usize, n: u64) -> Result<usize, Refusal>
    ensures { result ≡ strings n s.now at }
{
    let mut place = at;
    for _ in 0..n {
        (_, place) = long_part(s, place)?;
    }
    Ok(place)
}

// A step over any list, from a place on: the item there and the place after it, or None where the list has ended.
#[tactic(auto, unfolding(crate::specs::Lists::step))]
pub fn next_item<I: ListItem>(s: &[u8], at: usize) -> Result<Option<(I, usize)>, Refusal>
    ensures { result ≡ step I.rule s.now at }
{
    if at == s.len() {
        return Ok(None);
    }
    if s.len() < at {
        return Err(wire::refuse(SHORT, at));
    }
    Ok(Some(I::read(s, at)?))
}

// ---- a cursor for each kind of list
// They stay four types: each has a line of its own among the calls whose safety is proved (promises/specs/Calls.antt).

// The cursor of a list of integers: fields 3, 7, 8, 11 and 13.
#[derive(Clone, Copy, Debug, PartialEq, Eq)]
pub struct Integers {
    pub at: usize,
}

impl Model for Integers {
    ghost Value = { ℕ };

    ghost view = { λ cursor. cursor.at };

    ghost inverse = { λ at. record { at = at } };
}

impl Integers {
    pub fn next(self, s: &[u8]) -> Result<Option<(u64, Integers)>, Refusal>
        ensures { result ≡ step integer_item s.now self }
    {
        let step = next_item(s, self.at)?;
        Ok(step.map(|(value, at)| (value, Integers { at })))
    }
}

// The cursor of a list of pairs: in field 9 a column and the length of its prefix; in fields 2 and 10, behind the default, a rank and its
// charset.
#[derive(Clone, Copy, Debug, PartialEq, Eq)]
pub struct Pairs {
    pub at: usize,
}

impl Model for Pairs {
    ghost Value = { ℕ };

    ghost view = { λ cursor. cursor.at };

    ghost inverse = { λ at. record { at = at } };
}

impl Pairs {
    pub fn next(self, s: &[u8]) -> Result<Option<((u64, u64), Pairs)>, Refusal>
        ensures { result ≡ step pair_item s.now self }
    {
        let step = next_item(s, self.at)?;
        Ok(step.map(|(pair, at)| (pair, Pairs { at })))
    }
}

// The cursor of a list of strings: field 4.
#[derive(Clone, Copy, Debug, PartialEq, Eq)]
pub struct Strings {
    pub at: usize,
}

impl Model for Strings {
    ghost Value = { ℕ };

    ghost view = { λ cursor. cursor.at };

    ghost inverse = { λ at. record { at = at } };
}

impl Strings {
    pub fn next(self, s: &[u8]) -> Result<Option<(Part, Strings)>, Refusal>
        ensures { result ≡ step string_item s.now self }
    {
        let step = next_item(s, self.at)?;
        Ok(step.map(|(value, at)| (value, Strings { at })))
    }
}

// The cursor of a list of groups of strings: fields 5 and 6. A group is told by how many strings it has and where the first stands.
#[derive(Clone, Copy, Debug, PartialEq, Eq)]
pub struct Groups {
    pub at: usize,
}

impl Model for Groups {
    ghost Value = { ℕ };

    ghost view = { λ cursor. cursor.at };

    ghost inverse = { λ at. record { at = at } };
}

impl Groups {
    pub fn next(self, s: &[u8]) -> Result<Option<((u64, usize), Groups)>, Refusal>
        ensures { result ≡ step group_item s.now self }
    {
        let step = next_item(s, self.at)?;
        Ok(step.map(|(group, at)| (group, Groups { at })))
    }
}

// The default charset at the start of fields 2 and 10, and the pairs (rank, charset) that follow it.
pub fn default_charset(value: &[u8]) -> Result<(u64, Pairs), Refusal>
    ensures { result ≡ default_charset value.now }
{
    let (charset, at) = read_packed(value, 0)?;
    Ok((charset, Pairs { at }))
}

// Bit i of fields 1 and 12, counted from the highest down; one past the bytes is not set.
pub fn flag(value: &[u8], i: usize) -> bool
    ensures { result ≡ bit_msb0 value.now i }
{
    wire::bit_msb0(value, i)
}
