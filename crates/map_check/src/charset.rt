// The charsets of a class of columns, one after the other in the order of ranks. The ranks of pairs rise, so one look at the pair at the
// cursor tells a rank's charset.
ghost use Rattle.std.specs.Prelude.{◌≡◌};
ghost use Rattle.wire.specs.Packed.{read_packed};
ghost use Rattle.table_map.specs.Lists.{step, integer_item, pair_item};
ghost use Rattle.map_check.specs.Inner.Making.{ClassHolds, IntegerFits, PairFits, behind_default, list_turn, pair_turn, Stands};
ghost use Rattle.map_check.specs.Inner.Making.{CharsetTurned, CharsetTurnedIf};

use crate::facts::Charsets;
use crate::found::value_in;
use crate::rank::Rank;
use table_map::{Integers, Pairs};

// Where the next charset of a class is looked for, and the charset of ranks without a pair. A charset is 0 for none, as the record has it.
#[derive(Clone, Copy)]
pub(crate) struct CharsetCursor {
    pub at: usize,
    pub default: u16,
}

#[derive(Clone, Copy)]
pub(crate) struct CharsetTurn {
    pub charset: u16,
    pub next: CharsetCursor,
}

// At the first pair, behind the default.
fn behind_default(value: &[u8]) -> CharsetCursor
    requires { IntegerFits value.now 0 }
    ensures { result ≡ behind_default (read_packed value.now 0) }
{
    match table_map::default_charset(value) {
        Ok((charset, pairs)) => CharsetCursor {
            at: pairs.at,
            default: charset as u16,
        },
        Err(_) => CharsetCursor { at: 0, default: 0 },
    }
}

// Where the charset of rank 0 is looked for.
pub(crate) fn first_charset(event: &[u8], class: Charsets) -> CharsetCursor
    requires { ClassHolds event.now class }
    ensures { Stands event.now class 0 result }
{
    match class.list {
        Some(_) => CharsetCursor { at: 0, default: 0 },
        None => behind_default(value_in(event, class.default)),
    }
}

// The charset at the cursor, in a list.
fn next_listed(value: &[u8], cursor: CharsetCursor) -> CharsetTurn
    requires { IntegerFits value.now cursor.at }
    ensures { result ≡ list_turn cursor (step integer_item value.now cursor.at) }
{
    let none = CharsetTurn {
        charset: 0,
        next: cursor,
    };
    let list = Integers { at: cursor.at };
    match list.next(value) {
        Ok(Some((charset, next))) => CharsetTurn {
            charset: charset as u16,
            next: CharsetCursor {
                at: next.at,
                default: cursor.default,
            },
        },
        Ok(None) | Err(_) => none,
    }
}

// The charset of a rank, by the pair at the cursor or else the default.
fn next_paired(value: &[u8], cursor: CharsetCursor, rank: Rank) -> CharsetTurn
    requires { PairFits value.now cursor.at }
    ensures { result ≡ pair_turn cursor rank.0 (step pair_item value.now cursor.at) }
{
    let otherwise = CharsetTurn {
        charset: cursor.default,
        next: cursor,
    };
    let pairs = Pairs { at: cursor.at };
    match pairs.next(value) {
        Ok(Some(((first, second), next))) => {
            if first == rank.0 as u64 {
                return CharsetTurn {
                    charset: second as u16,
                    next: CharsetCursor {
                        at: next.at,
                        default: cursor.default,
                    },
                };
            }
            otherwise
        }
        Ok(None) | Err(_) => otherwise,
    }
}

// The charset of a rank, and where that of the next is looked for. Its parameters stand side by side, as `Stands` takes them.
fn next_charset(event: &[u8], class: Charsets, cursor: CharsetCursor, rank: Rank) -> CharsetTurn
    requires { Stands event.now class rank.0 cursor }
    ensures { CharsetTurned event.now class rank result }
{
    match class.list {
        // The part is not bound: the lemmas about a list (fits_in_list, taken_in_list) are about value_in.
        Some(_) => next_listed(value_in(event, class.list), cursor),
        None => next_paired(value_in(event, class.default), cursor, rank),
    }
}

// The same for a column that may not be of the class: 0 if it is not, and nothing moves.
pub(crate) fn charset_if(
    event: &[u8],
    member: bool,
    class: Charsets,
    cursor: CharsetCursor,
    rank: Rank,
) -> CharsetTurn
    requires { Stands event.now class rank.0 cursor }
    ensures { CharsetTurnedIf member event.now class rank result }
{
    if !member {
        return CharsetTurn {
            charset: 0,
            next: cursor,
        };
    }
    next_charset(event, class, cursor, rank)
}
