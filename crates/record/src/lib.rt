// The profile record, of both kinds: what a row reader needs of an accepted map. Added by document 01; the Rust has no such thing.
#![tactic(auto)]

mod entry;
mod profile;

pub use entry::{Entry, column_of, entry_holds, write_entry};
pub use profile::{MOST_BYTES, MOST_COLUMNS, entry_at, entry_in, read_record, write_head};
