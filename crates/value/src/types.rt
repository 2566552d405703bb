// The one table of column types, and what a type alone tells (constants.rs: ColumnType).
ghost use Rattle.std.specs.Prelude.{◌≡◌};
ghost use Rattle.value.specs.Types.{family_of, is_known, metadata_bytes, is_numeric, or30, real_type};

// The column types that are taken, by the Rust's names. They stay numbers: they are bytes of a map and of a record, `feed_column` tells them
// to C, and the functions here take any byte; `family_of` tells what each is.
pub const MYSQL_TYPE_TINY: u8 = 1;

pub const MYSQL_TYPE_SHORT: u8 = 2;

pub const MYSQL_TYPE_LONG: u8 = 3;

pub const MYSQL_TYPE_FLOAT: u8 = 4;

pub const MYSQL_TYPE_DOUBLE: u8 = 5;

pub const MYSQL_TYPE_TIMESTAMP: u8 = 7;

pub const MYSQL_TYPE_LONGLONG: u8 = 8;

pub const MYSQL_TYPE_INT24: u8 = 9;

pub const MYSQL_TYPE_DATE: u8 = 10;

pub const MYSQL_TYPE_TIME: u8 = 11;

pub const MYSQL_TYPE_DATETIME: u8 = 12;

pub const MYSQL_TYPE_YEAR: u8 = 13;

pub const MYSQL_TYPE_NEWDATE: u8 = 14;

pub const MYSQL_TYPE_VARCHAR: u8 = 15;

pub const MYSQL_TYPE_BIT: u8 = 16;

pub const MYSQL_TYPE_TIMESTAMP2: u8 = 17;

pub const MYSQL_TYPE_DATETIME2: u8 = 18;

pub const MYSQL_TYPE_TIME2: u8 = 19;

pub const MYSQL_TYPE_VECTOR: u8 = 242;

pub const MYSQL_TYPE_JSON: u8 = 245;

pub const MYSQL_TYPE_NEWDECIMAL: u8 = 246;

pub const MYSQL_TYPE_ENUM: u8 = 247;

pub const MYSQL_TYPE_SET: u8 = 248;

pub const MYSQL_TYPE_TINY_BLOB: u8 = 249;

pub const MYSQL_TYPE_MEDIUM_BLOB: u8 = 250;

pub const MYSQL_TYPE_LONG_BLOB: u8 = 251;

pub const MYSQL_TYPE_BLOB: u8 = 252;

pub const MYSQL_TYPE_VAR_STRING: u8 = 253;

pub const MYSQL_TYPE_STRING: u8 = 254;

pub const MYSQL_TYPE_GEOMETRY: u8 = 255;

// What a column type is.
#[derive(Clone, Copy, Debug, PartialEq, Eq)]
pub enum Family {
    // 1, 2, 9, 3, 8
    Integer { width: usize },
    // 4
    Float,
    // 5
    Double,
    // 13
    Year,
    // 7
    Timestamp,
    // 10 and 14
    Date,
    // 11
    Time,
    // 12
    Datetime,
    // 17
    Timestamp2,
    // 18
    Datetime2,
    // 19
    Time2,
    // 15, 253
    Varchar,
    // 254
    Char,
    // 242, 249..252, 255
    Blob,
    // 245
    Json,
    // 16
    Bit,
    // 246
    Decimal,
    // 247
    Enum,
    // 248
    Set,
    Unknown,
}

// The family of a type byte.
#[tactic(auto, using(wire::proofs::Rules::tests), unfolding(crate::specs::Types::family_of))]
pub fn family_of(kind: u8) -> Family
    ensures { result ≡ family_of kind }
{
    match kind {
        MYSQL_TYPE_TINY => Family::Integer { width: 1 },
        MYSQL_TYPE_SHORT => Family::Integer { width: 2 },
        MYSQL_TYPE_INT24 => Family::Integer { width: 3 },
        MYSQL_TYPE_LONG => Family::Integer { width: 4 },
        MYSQL_TYPE_LONGLONG => Family::Integer { width: 8 },
        MYSQL_TYPE_FLOAT => Family::Float,
        MYSQL_TYPE_DOUBLE => Family::Double,
        MYSQL_TYPE_YEAR => Family::Year,
        MYSQL_TYPE_TIMESTAMP => Family::Timestamp,
        MYSQL_TYPE_DATE | MYSQL_TYPE_NEWDATE => Family::Date,
        MYSQL_TYPE_TIME => Family::Time,
        MYSQL_TYPE_DATETIME => Family::Datetime,
        MYSQL_TYPE_TIMESTAMP2 => Family::Timestamp2,
        MYSQL_TYPE_DATETIME2 => Family::Datetime2,
        MYSQL_TYPE_TIME2 => Family::Time2,
        MYSQL_TYPE_VARCHAR | MYSQL_TYPE_VAR_STRING => Family::Varchar,
        MYSQL_TYPE_STRING => Family::Char,
        MYSQL_TYPE_VECTOR
        | MYSQL_TYPE_TINY_BLOB
        | MYSQL_TYPE_MEDIUM_BLOB
        | MYSQL_TYPE_LONG_BLOB
        | MYSQL_TYPE_BLOB
        | MYSQL_TYPE_GEOMETRY => Family::Blob,
        MYSQL_TYPE_JSON => Family::Json,
        MYSQL_TYPE_BIT => Family::Bit,
        MYSQL_TYPE_NEWDECIMAL => Family::Decimal,
        MYSQL_TYPE_ENUM => Family::Enum,
        MYSQL_TYPE_SET => Family::Set,
        _ => Family::Unknown,
    }
}

// Whether there is such a type.
#[tactic(auto, using(wire::proofs::Rules::tests), unfolding(crate::specs::Types::is_known, crate::specs::Types::traits_of))]
pub fn is_known(kind: u8) -> bool
    ensures { result ≡ is_known (family_of kind) }
{
    !matches!(family_of(kind), Family::Unknown)
}

// How many bytes of metadata a type has (ColumnType::get_metadata).
#[tactic(auto, using(wire::proofs::Rules::tests), unfolding(crate::specs::Types::metadata_bytes, crate::specs::Types::traits_of))]
pub fn metadata_bytes(kind: u8) -> usize
    ensures { result ≡ metadata_bytes (family_of kind) }
{
    match family_of(kind) {
        Family::Float
        | Family::Double
        | Family::Timestamp2
        | Family::Datetime2
        | Family::Time2
        | Family::Blob
        | Family::Json => 1,
        Family::Varchar
        | Family::Char
        | Family::Bit
        | Family::Decimal
        | Family::Enum
        | Family::Set => 2,
        _ => 0,
    }
}

// m0 or-ed with 0x30: the two bits of 0x30 set, the others as they are.
#[tactic(auto, using(crate::proofs::Bits::or_same))]
pub(crate) fn or_30(m0: u8) -> u8
    ensures { result ≡ or30 m0 }
{
    m0 | 0x30
}

// The real type of a column of the type, which is told by m0 for 254 (TableMapEvent::get_real_type).
#[tactic(auto, using(wire::proofs::Rules::tests), unfolding(crate::specs::Types::real_type))]
pub fn real_type(kind: u8, m0: u8) -> u8
    ensures { result ≡ real_type kind m0 }
{
    if kind == MYSQL_TYPE_DATE {
        return MYSQL_TYPE_NEWDATE;
    }
    if kind == MYSQL_TYPE_STRING {
        return or_30(m0);
    }
    kind
}

// Whether document 01 gives the type a signedness bit. (ColumnType::is_numeric_type counts 13 and 0 as well; servers count 13, and
// `has_sign_bit` goes by their dialect.)
#[tactic(auto, using(wire::proofs::Rules::tests), unfolding(crate::specs::Types::is_numeric, crate::specs::Types::traits_of))]
pub fn is_numeric(kind: u8) -> bool
    ensures { result ≡ is_numeric (family_of kind) }
{
    matches!(
        family_of(kind),
        Family::Integer { .. } | Family::Float | Family::Double | Family::Decimal
    )
}
