// The parts of a value, each a number.
#![tactic(auto, using(crate::proofs::Holds::held), unfolding(crate::specs::Parts::padded, crate::specs::Parts::parts_of))]

ghost use Rattle.std.specs.Prelude.{◌≡◌, true, ◌∷◌, []};
ghost use Rattle.value_parts.specs.Parts.{parts_of, padded, is_held};

use temporal::Temporal;
use value::Value;

fn temporal_parts(t: Temporal) -> [u64; 7]
    ensures value { result ≡ padded 7 (parts_of (Value.Temporal t)) }
    ensures t_value { is_held (Value.Temporal t) ≡ true }
{
    match t {
        Temporal::Seconds(s) => [s.seconds.into(), s.micros.into(), 0, 0, 0, 0, 0],
        Temporal::Date(d) => [d.year.into(), d.month.into(), d.day.into(), 0, 0, 0, 0],
        Temporal::Datetime(m) => [
            m.year.into(),
            m.month.into(),
            m.day.into(),
            m.hour.into(),
            m.minute.into(),
            m.second.into(),
            m.micros.into(),
        ],
        Temporal::Time(t) => [
            t.negative.into(),
            t.hours.into(),
            t.minutes.into(),
            t.seconds.into(),
            t.micros.into(),
            0,
            0,
        ],
    }
}

// The parts of a value that has one.
fn one_part(n: u64) -> [u64; 7]
    ensures { result ≡ padded 7 (n ∷ []) }
{
    [n, 0, 0, 0, 0, 0, 0]
}

// The seven parts of a value, 0 for each that its sort has not. Every value that there is has each part within its bits, and so is made
// again of its sort and parts.
pub fn parts_of(value: Value) -> [u64; 7]
    ensures value { result ≡ padded 7 (parts_of value) }
    ensures value_value { is_held value ≡ true }
{
    match value {
        Value::Null => [0; 7],
        Value::Int(z) => one_part(wire::twos_of(8, z)),
        Value::Uint(n) => one_part(n),
        Value::Float(bits) => one_part(u64::from(bits)),
        Value::Double(bits) => one_part(bits),
        Value::Year(y) => one_part(u64::from(y)),
        Value::Temporal(t) => temporal_parts(t),
        Value::Bytes(part) => [part.start as u64, part.len as u64, 0, 0, 0, 0, 0],
    }
}
