// The key indexes of a map, in its fields 8 and 9: all below n, and none twice.
ghost use Rattle.std.specs.Prelude.{◌≡◌, true, false, [], ◌+◌, ◌<◌, ◌^◌, length, ltb};
ghost use Rattle.wire.specs.Outcome.{after};
ghost use Rattle.map_check.specs.Contents.{list_holds, key_item};
ghost use Rattle.map_check.specs.Keys.{keys_from, keys_once, once_in};

use crate::rank::TablePlace;
use wire::refusal::BAD_FIELD;
use wire::{Part, Refusal, part_of, read_packed, refuse};

// The key index at `at`, and the place after its item, which in field 9 has a prefix length too: the definition `key_item` goes by `paired`.
#[tactic(auto, unfolding(crate::specs::Contents::key_item))]
pub(crate) fn key_at(value: &[u8], paired: bool, at: usize) -> Result<(u64, usize), Refusal>
    ensures { result ≡ key_item paired value.now at }
{
    let (key, next) = read_packed(value, at)?;
    if !paired {
        return Ok((key, next));
    }
    let (_, behind) = read_packed(value, next)?;
    Ok((key, behind))
}

// Whether the value is keys, and each is the place of one of the map's columns.
#[tactic(auto, using(crate::proofs::KeyLaws::KeyItems::key_moved))]
pub(crate) fn keys_below(value: &[u8], paired: bool, columns: TablePlace) -> bool
    ensures { result ≡ list_holds (key_item paired) (λ k. ltb k columns.0) value.now 0 }
{
    let above = columns.0 as u64;
    let mut at: usize = 0;
    // a walk: the place is moved by what is read, and a refused key is no end
    while at < value.len() {
        let Ok((key, next)) = key_at(value, paired, at) else {
            return false;
        };
        if above <= key {
            return false;
        }
        at = next;
    }
    true
}

// The keys of a field's value, which starts at `start` of the event. The earliest item that repeats one is told, so the later item is the
// outer loop: with the earlier one outside, keys 1, 2, 2, 1 would be told at the fourth item and not at the third. The contents were judged
// before, so keys are below n, which is at most MOST_COLUMNS: a repetition comes within the first n + 1 items, and however long the value
// is, at most n (n + 1) / 2 pairs of items are compared.
#[tactic(auto, using(crate::proofs::KeyLaws::Repeats::key_turns))]
fn keys_once(value: &[u8], paired: bool, start: usize) -> Result<(), Refusal>
    requires { start + length value.now < 2 ^ 64 }
    ensures { result ≡ keys_once start [] (keys_from paired value.now 0) }
{
    let mut answer = Ok(());
    let mut later: usize = 0;
    // Nested loops over the items, left by a label at the first repetition: document 01 names this form.
    'later: while let Ok((key, next)) = key_at(value, paired, later) {
        let mut earlier: usize = 0;
        while earlier < later {
            // not refused: it was read before, as the later item
            let (other, behind) = key_at(value, paired, earlier)?;
            if other == key {
                answer = Err(refuse(BAD_FIELD, start + later));
                break 'later;
            }
            earlier = behind;
        }
        later = next;
    }
    answer
}

// The keys of a field, if it stands.
fn once_in(event: &[u8], paired: bool, field: Option<Part>) -> Result<(), Refusal>
    ensures { result ≡ once_in paired event.now field }
{
    match field {
        Some(part) => keys_once(part_of(event, part), paired, part.start),
        None => Ok(()),
    }
}

// Field 8, then field 9.
pub(crate) fn keys_checked(
    event: &[u8],
    simple: Option<Part>,
    prefixed: Option<Part>,
) -> Result<(), Refusal>
    ensures { result ≡ after (once_in false event.now simple) (λ x. once_in true event.now prefixed) }
{
    once_in(event, false, simple)?;
    once_in(event, true, prefixed)
}
