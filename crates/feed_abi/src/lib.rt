// The calls of the port for programs in C and Rust: numbers and lent slices alone, a status as the result, and the answer in a lent buffer
// of numbers. Each stands over one call of the library: the inner function above it answers the numbers or a refusal, and `tell` puts either
// into the buffer. The public functions are alike and their parameters travel together because they are the interface for C (feed_abi_c).
#![tactic(auto)]

mod answer;
mod arrivals;
mod events;
mod fields;
mod maps;
mod plans;
mod rows;

pub use arrivals::{feed_begin, feed_end, feed_give};
pub use events::{feed_image, feed_rows};
pub use fields::{feed_field, feed_fields, feed_item, feed_parts};
pub use maps::{feed_check, feed_column, feed_map, feed_name, feed_names};
pub use plans::{feed_plan, feed_put_item, feed_run};
pub use rows::{feed_first, feed_put, feed_room, feed_start, feed_step};
