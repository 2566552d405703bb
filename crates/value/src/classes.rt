// The classes by which a map's optional fields count columns, by dialect (constants.rs: ColumnType).
ghost use Rattle.std.specs.Prelude.{◌≡◌};
ghost use Rattle.value.specs.Classes.{has_sign_bit, is_character, has_charset, is_enum_or_set};

use crate::types::{
    MYSQL_TYPE_BLOB, MYSQL_TYPE_ENUM, MYSQL_TYPE_GEOMETRY, MYSQL_TYPE_SET, MYSQL_TYPE_STRING,
    MYSQL_TYPE_VAR_STRING, MYSQL_TYPE_VARCHAR, MYSQL_TYPE_VECTOR, MYSQL_TYPE_YEAR, is_numeric,
};

// Which columns a server counts where it gives signedness bits and charsets: document 01's lists, or those that servers of this
// name were seen to use.
#[derive(Clone, Copy, Debug, PartialEq, Eq)]
pub enum Dialect {
    Document,
    Mysql,
    Mariadb,
}

// Whether the dialect gives the type a signedness bit.
#[tactic(auto, using(wire::proofs::Rules::tests), unfolding(crate::specs::Classes::has_sign_bit, crate::specs::Types::is_numeric, crate::specs::Types::family_of))]
pub fn has_sign_bit(dialect: Dialect, kind: u8) -> bool
    ensures { result ≡ has_sign_bit dialect kind }
{
    if kind == MYSQL_TYPE_YEAR {
        return dialect != Dialect::Document;
    }
    is_numeric(kind)
}

// Whether columns of the real type are character columns (ColumnType::is_character_type).
#[tactic(auto, using(wire::proofs::Rules::tests), unfolding(crate::specs::Classes::is_character))]
pub fn is_character(real: u8) -> bool
    ensures { result ≡ is_character real }
{
    matches!(
        real,
        MYSQL_TYPE_VARCHAR | MYSQL_TYPE_BLOB | MYSQL_TYPE_VAR_STRING | MYSQL_TYPE_STRING
    )
}

// Whether the dialect gives columns of the real type a charset.
#[tactic(auto, using(wire::proofs::Rules::tests), unfolding(crate::specs::Classes::has_charset, crate::specs::Classes::is_character))]
pub fn has_charset(dialect: Dialect, real: u8) -> bool
    ensures { result ≡ has_charset dialect real }
{
    if real == MYSQL_TYPE_VECTOR {
        return dialect == Dialect::Mysql;
    }
    if real == MYSQL_TYPE_GEOMETRY {
        return dialect == Dialect::Mariadb;
    }
    is_character(real)
}

// Whether columns of the real type are ENUM or SET columns (ColumnType::is_enum_or_set_type).
#[tactic(auto, using(wire::proofs::Rules::tests), unfolding(crate::specs::Classes::is_enum_or_set))]
pub fn is_enum_or_set(real: u8) -> bool
    ensures { result ≡ is_enum_or_set real }
{
    matches!(real, MYSQL_TYPE_ENUM | MYSQL_TYPE_SET)
}
