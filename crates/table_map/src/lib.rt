// The table map event: its parts, its writer, its optional fields and the lists in them.
// Ports mysql_common 0.38.2: binlog/events/table_map_event.rs.
#![tactic(auto)]

mod event;
mod field;
pub mod field_type;
mod list;
mod part;
mod write;

pub use event::{
    Event, column_metadata, column_types, database_name, nullable_bits, optional_metadata,
    read_event, table_name,
};
pub use field::{Fields, cut_field};
pub use list::{Groups, Integers, ListItem, Pairs, Strings, default_charset, flag, next_item};
pub use write::{event_size, write_event};
