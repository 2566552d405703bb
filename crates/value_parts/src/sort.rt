// The sorts of values, each with its number. They stay numbers: C passes them, and the definitions sort_of and value_of go by them.
#![tactic(auto, unfolding(crate::specs::Parts::sort_of))]

ghost use Rattle.std.specs.Prelude.{◌≡◌};
ghost use Rattle.value_parts.specs.Parts.{sort_of};

use temporal::Temporal;
use value::Value;

// The sorts of values. No value has sort 0, which is free for what is none.
pub const NULL: u64 = 1;

pub const INT: u64 = 2;

pub const UINT: u64 = 3;

pub const FLOAT: u64 = 4;

pub const DOUBLE: u64 = 5;

pub const SECONDS: u64 = 6;

pub const YEAR: u64 = 7;

pub const DATE: u64 = 8;

pub const DATETIME: u64 = 9;

pub const TIME: u64 = 10;

pub const BYTES: u64 = 11;

fn temporal_sort(t: Temporal) -> u64
    ensures { result ≡ sort_of (Value.Temporal t) }
{
    match t {
        Temporal::Seconds(_) => SECONDS,
        Temporal::Date(_) => DATE,
        Temporal::Datetime(_) => DATETIME,
        Temporal::Time(_) => TIME,
    }
}

// The sort of a value.
pub fn sort_of(value: Value) -> u64
    ensures { result ≡ sort_of value }
{
    match value {
        Value::Null => NULL,
        Value::Int(_) => INT,
        Value::Uint(_) => UINT,
        Value::Float(_) => FLOAT,
        Value::Double(_) => DOUBLE,
        Value::Year(_) => YEAR,
        Value::Temporal(t) => temporal_sort(t),
        Value::Bytes(_) => BYTES,
    }
}
