// The check of a map, which writes the profile record, and the names of columns. Added by document 01. From the Rust
// (binlog/events/table_map_event.rs) come a column's metadata and real type, and the list of names.
#![tactic(auto)]

mod charset;
mod column;
mod contents;
mod declare;
mod entries;
mod facts;
mod field;
mod found;
mod keys;
mod map;
mod names;
mod rank;

pub use map::check;
pub use names::{column_name, name_part, names_field};
pub use rank::{Rank, TablePlace};
