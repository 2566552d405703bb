// The columns of a map in turn: which are accepted, and how many there are of each class.
ghost use Rattle.std.specs.Prelude.{◌≡◌, ◌≤◌, length};
ghost use Rattle.wire.specs.Outcome.{ok, after};
ghost use Rattle.record.specs.Records.{most_columns};
ghost use Rattle.map_check.specs.Columns.{is_real, is_accepted, take_column, take_columns};
ghost use Rattle.map_check.specs.Ranks.{sizes_of};

use crate::declare::{Declared, declare};
use crate::rank::{Ranks, TablePlace, ranks_after};
use value::types::{MYSQL_TYPE_ENUM, MYSQL_TYPE_SET, MYSQL_TYPE_STRING};
use value::{Column, Dialect, is_known, metadata_bytes};
use wire::refusal::{BAD_METADATA, TYPE_NOT_TAKEN};
use wire::{Refusal, refuse};

// Whether a column of type 254 has one of the real types that it may have; of other types nothing is asked here.
#[tactic(auto, using(wire::proofs::Rules::tests), unfolding(crate::specs::Columns::is_real))]
fn is_real(kind: u8, real: u8) -> bool
    ensures { result ≡ is_real kind real }
{
    kind != MYSQL_TYPE_STRING
        || matches!(real, MYSQL_TYPE_ENUM | MYSQL_TYPE_SET | MYSQL_TYPE_STRING)
}

#[tactic(auto, unfolding(crate::specs::Columns::is_accepted))]
pub(crate) fn is_accepted(column: Declared) -> bool
    ensures { result ≡ is_accepted column }
{
    let Declared { kind, real, m0, m1 } = column;
    is_real(kind, real)
        && value::is_accepted(Column {
            real,
            m0,
            m1,
            unsigned: false,
        })
}

// The column of a type at a place; `rest` is the metadata from its own on.
#[tactic(auto, using(wire::proofs::Rules::tests), unfolding(crate::specs::Columns::take_column))]
pub(crate) fn take_column(kind: u8, rest: &[u8], column: TablePlace) -> Result<Declared, Refusal>
    ensures { result ≡ take_column kind rest.now column.0 }
{
    if !is_known(kind) {
        return Err(refuse(TYPE_NOT_TAKEN, column.0));
    }
    if rest.len() < metadata_bytes(kind) {
        return Err(refuse(BAD_METADATA, column.0));
    }
    let said = declare(kind, rest);
    if !is_accepted(said) {
        return Err(refuse(BAD_METADATA, column.0));
    }
    Ok(said)
}

// How many columns each class has: all are taken in turn, until one is refused. Behind the last there may be no metadata left.
pub(crate) fn take_columns(
    dialect: Dialect,
    types: &[u8],
    metadata: &[u8],
) -> Result<Ranks, Refusal>
    requires { length types.now ≤ most_columns }
    ensures { result ≡ after (take_columns types.now metadata.now 0) (λ cs. ok (sizes_of dialect cs)) }
{
    let mut ranks = Ranks::default();
    let mut rest = metadata;
    for (j, kind) in types.iter().enumerate() {
        let column = take_column(*kind, rest, TablePlace(j))?;
        ranks = ranks_after(dialect, ranks, column);
        rest = &rest[metadata_bytes(*kind)..];
    }
    if !rest.is_empty() {
        return Err(refuse(BAD_METADATA, types.len()));
    }
    Ok(ranks)
}
