// What programs in C and Rust link: an export for each call of `feed_abi`, with the same name and the same clauses. The header is
// bindings/feed.h.
#![tactic(auto)]

pub mod arrivals;
pub mod events;
pub mod fields;
pub mod maps;
pub mod plans;
pub mod rows;
