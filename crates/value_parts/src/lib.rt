// A value in numbers, its sort and seven parts, and the value that a sort and parts make: for whoever cannot pass a `Value` on, such as a
// caller in C, or handles values of all sorts in one loop. Added: the Rust passes its own enum.
#![tactic(auto)]

mod made;
mod parts;
pub mod sort;

pub use made::value_of;
pub use parts::parts_of;
pub use sort::sort_of;
