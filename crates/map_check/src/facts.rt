// What the check keeps of a map besides its columns.
use wire::Part;

// The two fields that tell the charsets of a class, of which one may stand.
#[derive(Clone, Copy)]
pub(crate) struct Charsets {
    // a default, and pairs (rank, charset)
    pub default: Option<Part>,
    // a charset for each rank
    pub list: Option<Part>,
}

// What the record needs.
#[derive(Clone, Copy)]
pub(crate) struct Facts {
    // the nullable bits
    pub bits: Part,
    // fields 1 and 12
    pub signs: Option<Part>,
    pub visibility: Option<Part>,
    // fields 2 and 3
    pub characters: Charsets,
    // fields 10 and 11, of ENUM and SET columns
    pub choices: Charsets,
}

// What the check goes on with of a map's fields: those of keys, and what the record needs.
#[derive(Clone, Copy)]
pub(crate) struct KeptFields {
    // fields 8 and 9
    pub simple: Option<Part>,
    pub prefixed: Option<Part>,
    pub facts: Facts,
}
