// The types of optional fields, by the Rust's names (binlog/events/table_map_event.rs: OptionalMetadataFieldType). They stay numbers: a type
// byte of the event is lent as it is, and one that is not known is cut out all the same (cut_field).

pub const SIGNEDNESS: u8 = 1;

pub const DEFAULT_CHARSET: u8 = 2;

pub const COLUMN_CHARSET: u8 = 3;

pub const COLUMN_NAME: u8 = 4;

pub const SET_STR_VALUE: u8 = 5;

pub const ENUM_STR_VALUE: u8 = 6;

pub const GEOMETRY_TYPE: u8 = 7;

pub const SIMPLE_PRIMARY_KEY: u8 = 8;

pub const PRIMARY_KEY_WITH_PREFIX: u8 = 9;

pub const ENUM_AND_SET_DEFAULT_CHARSET: u8 = 10;

pub const ENUM_AND_SET_COLUMN_CHARSET: u8 = 11;

pub const COLUMN_VISIBILITY: u8 = 12;

pub const VECTOR_DIMENSIONALITY: u8 = 13;
