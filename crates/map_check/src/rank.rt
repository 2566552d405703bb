// Two ways of numbering columns: by their place in the table, and by their rank among the columns of a class.
ghost use Rattle.std.specs.Prelude.{◌≡◌, ◌≤◌};
ghost use Rattle.record.specs.Records.{most_columns};
ghost use Rattle.map_check.specs.Ranks.{rank_after, ranks_after};
ghost use Rattle.map_check.specs.Inner.Ranks.{AtMost};

use crate::declare::Declared;
use value::Dialect;
use value::types::{MYSQL_TYPE_ENUM, MYSQL_TYPE_GEOMETRY, MYSQL_TYPE_SET, MYSQL_TYPE_VECTOR};

// A column's place in the table, from 0 on.
#[derive(Clone, Copy, Debug, PartialEq, Eq)]
pub struct TablePlace(pub usize);

// A column's rank in a class, from 0 on.
#[derive(Clone, Copy, Debug, Default, PartialEq, Eq)]
pub struct Rank(pub usize);

// The next rank of every class: after all columns, how many columns each has.
#[derive(Clone, Copy, Debug, Default, PartialEq, Eq)]
pub struct Ranks {
    // columns with a signedness bit
    pub sign: Rank,
    // columns with a charset in fields 2 and 3
    pub character: Rank,
    // ENUM and SET columns together
    pub choice: Rank,
    pub set: Rank,
    pub enumeration: Rank,
    pub geometry: Rank,
    pub vector: Rank,
}

// The next rank of a class after a column, which may be of the class.
fn rank_after(before: Rank, member: bool) -> Rank
    requires { before.0 ≤ most_columns }
    ensures { result ≡ rank_after before member }
{
    Rank(before.0 + usize::from(member))
}

// The next rank of every class, after a column. Signedness goes by the type byte, every other class by the real type.
#[tactic(auto, unfolding(crate::specs::Ranks::ranks_after))]
pub(crate) fn ranks_after(dialect: Dialect, ranks: Ranks, column: Declared) -> Ranks
    requires { AtMost most_columns ranks }
    ensures { result ≡ ranks_after dialect ranks column }
{
    let real = column.real;
    Ranks {
        sign: rank_after(ranks.sign, value::has_sign_bit(dialect, column.kind)),
        character: rank_after(ranks.character, value::has_charset(dialect, real)),
        choice: rank_after(ranks.choice, value::is_enum_or_set(real)),
        set: rank_after(ranks.set, real == MYSQL_TYPE_SET),
        enumeration: rank_after(ranks.enumeration, real == MYSQL_TYPE_ENUM),
        geometry: rank_after(ranks.geometry, real == MYSQL_TYPE_GEOMETRY),
        vector: rank_after(ranks.vector, real == MYSQL_TYPE_VECTOR),
    }
}
