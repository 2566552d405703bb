// The contents of optional fields, judged in full.
ghost use Rattle.std.specs.Prelude.{◌≡◌, Bool};
ghost use Rattle.table_map.specs.Lists.{Moves, integer_item, string_item, group_item};
ghost use Rattle.map_check.specs.Contents.{whatever, exactly, is_charset, integer_holds, pairs_whole, default_holds, contents_full};
ghost use Rattle.map_check.specs.Inner.Contents.{Computes, items_held};

use crate::keys::keys_below;
use crate::rank::{Rank, Ranks, TablePlace};
use table_map::field_type::{
    COLUMN_CHARSET, COLUMN_NAME, DEFAULT_CHARSET, ENUM_AND_SET_COLUMN_CHARSET,
    ENUM_AND_SET_DEFAULT_CHARSET, ENUM_STR_VALUE, GEOMETRY_TYPE, PRIMARY_KEY_WITH_PREFIX,
    SET_STR_VALUE, SIMPLE_PRIMARY_KEY, VECTOR_DIMENSIONALITY,
};
use table_map::{ListItem, next_item};
use wire::Part;

// What the integers of a list mean: the definition `integer_holds` goes by it.
#[derive(Clone, Copy)]
pub(crate) enum Meaning {
    Charset,
    GeometryType,
    Dimension,
}

#[tactic(auto, using(wire::proofs::Rules::tests), unfolding(crate::specs::Contents::is_charset))]
fn is_charset(v: u64) -> bool
    ensures { result ≡ is_charset v }
{
    matches!(v, 1..=65535)
}

#[tactic(auto, unfolding(crate::specs::Contents::integer_holds))]
fn integer_holds(meaning: Meaning, v: u64) -> bool
    ensures { result ≡ integer_holds meaning v }
{
    match meaning {
        Meaning::Charset => is_charset(v),
        Meaning::GeometryType => v <= 7,
        Meaning::Dimension => true,
    }
}

// How many items the value is, if they come to its end and all of them hold.
fn items_held<I: ListItem, F: Fn(I) -> bool>(value: &[u8], holds: F) -> Option<usize>
    requires callable { F.IsAlwaysCallable holds }
    requires moves { Moves I.rule }
    ensures { (p : I → Bool) → Computes (F.post holds) p → result ≡ items_held I.rule p value.now }
{
    let mut at: usize = 0;
    let mut count: usize = 0;
    // a walk: the place is moved by what is read, and a refusal is no end
    loop {
        match next_item(value, at) {
            Ok(Some((item, next))) => {
                if !holds(item) {
                    return None;
                }
                at = next;
                count += 1;
            }
            Ok(None) => return Some(count),
            Err(_) => return None,
        }
    }
}

// Whether the value is as many integers as the class has columns, that all hold, and no more.
fn integers_hold(value: &[u8], meaning: Meaning, size: Rank) -> bool
    ensures { result ≡ exactly integer_item (integer_holds meaning) size.0 value.now }
{
    items_held(value, |v: u64| integer_holds(meaning, v)) == Some(size.0)
}

// Whether it is a string for each of the map's columns.
fn strings_hold(value: &[u8], columns: TablePlace) -> bool
    ensures { result ≡ exactly string_item whatever columns.0 value.now }
{
    items_held(value, |_: Part| true) == Some(columns.0)
}

// Whether it is a group of strings for each column of the class.
fn groups_hold(value: &[u8], size: Rank) -> bool
    ensures { result ≡ exactly group_item whatever size.0 value.now }
{
    items_held(value, |_: (u64, usize)| true) == Some(size.0)
}

// Whether pairs (rank, charset) fill the value from a place on, their ranks rising and below the size of the class.
#[tactic(auto, using(wire::proofs::Rules::tests, crate::proofs::ContentsLaws::Tallies::pair_turns))]
fn pairs_hold(value: &[u8], start: usize, size: Rank) -> bool
    ensures { result ≡ pairs_whole size.0 0 value.now start }
{
    let above = size.0 as u64;
    let mut at = start;
    let mut low: u64 = 0;
    // a walk, as above; each pair is judged by the one before it, so it is not one of items_held
    loop {
        match next_item::<(u64, u64)>(value, at) {
            Ok(Some(((rank, charset), next))) => {
                // three tests and no `||`: the proof has an answer for each
                if rank < low {
                    return false;
                }
                if above <= rank {
                    return false;
                }
                if !is_charset(charset) {
                    return false;
                }
                low = rank + 1;
                at = next;
            }
            Ok(None) => return true,
            Err(_) => return false,
        }
    }
}

#[tactic(auto, unfolding(crate::specs::Contents::default_holds))]
fn default_holds(value: &[u8], size: Rank) -> bool
    ensures { result ≡ default_holds size.0 value.now }
{
    match table_map::default_charset(value) {
        Ok((charset, pairs)) => is_charset(charset) && pairs_hold(value, pairs.at, size),
        Err(_) => false,
    }
}

// Whether the value of a field of the type `kind` is as it must be in a map with so many columns, and so many of each class.
#[tactic(auto, using(wire::proofs::Rules::tests), unfolding(crate::specs::Contents::contents_full))]
pub(crate) fn contents_full(sizes: Ranks, columns: TablePlace, kind: u8, value: &[u8]) -> bool
    ensures { result ≡ contents_full sizes columns.0 kind value.now }
{
    match kind {
        DEFAULT_CHARSET => default_holds(value, sizes.character),
        COLUMN_CHARSET => integers_hold(value, Meaning::Charset, sizes.character),
        COLUMN_NAME => strings_hold(value, columns),
        SET_STR_VALUE => groups_hold(value, sizes.set),
        ENUM_STR_VALUE => groups_hold(value, sizes.enumeration),
        GEOMETRY_TYPE => integers_hold(value, Meaning::GeometryType, sizes.geometry),
        SIMPLE_PRIMARY_KEY => keys_below(value, false, columns),
        PRIMARY_KEY_WITH_PREFIX => keys_below(value, true, columns),
        ENUM_AND_SET_DEFAULT_CHARSET => default_holds(value, sizes.choice),
        ENUM_AND_SET_COLUMN_CHARSET => integers_hold(value, Meaning::Charset, sizes.choice),
        VECTOR_DIMENSIONALITY => integers_hold(value, Meaning::Dimension, sizes.vector),
        _ => true,
    }
}
