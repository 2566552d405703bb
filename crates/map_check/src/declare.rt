// What a map says of a column before its optional fields: its type byte and its metadata (table_map_event.rs: get_column_metadata,
// get_real_type).
ghost use Rattle.std.specs.Prelude.{◌≡◌};
ghost use Rattle.map_check.specs.Columns.{meta_byte, declared};

use value::{metadata_bytes, real_type};

#[derive(Clone, Copy, Debug, PartialEq, Eq)]
pub struct Declared {
    // the type byte
    pub kind: u8,
    pub real: u8,
    pub m0: u8,
    pub m1: u8,
}

// Byte i of the metadata of a type, which stand at the start of `rest`; 0 if it has none or they end first.
#[tactic(auto, using(wire::proofs::Rules::tests), unfolding(crate::specs::Columns::meta_byte))]
fn meta_byte(i: usize, kind: u8, rest: &[u8]) -> u8
    ensures { result ≡ meta_byte i kind rest.now }
{
    if metadata_bytes(kind) <= i {
        return 0;
    }
    rest.get(i).copied().unwrap_or(0)
}

// What a type says of its column together with its metadata, which stand at the start of `rest`.
#[tactic(auto, unfolding(crate::specs::Columns::declared))]
pub(crate) fn declare(kind: u8, rest: &[u8]) -> Declared
    ensures { result ≡ declared kind rest.now }
{
    let m0 = meta_byte(0, kind, rest);
    let m1 = meta_byte(1, kind, rest);
    let real = real_type(kind, m0);
    Declared { kind, real, m0, m1 }
}
