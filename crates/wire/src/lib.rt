// What every other crate stands on: refusals, numbers of several bytes and their signs, bits, parts and packed integers.
// Ports mysql_common 0.38.2: io.rs (integers, read and written) and misc/mod.rs (their sizes).
// Bytes and a place in them, (s, at, k) or (v, buf, at), stay parameters of their own: these are public functions, whose offsets C hands in
// and gets back.
#![tactic(auto)]

mod bits;
mod fixed;
mod packed;
mod part;
pub mod refusal;
mod signed;
mod store;

pub use bits::{bit_lsb0, bit_msb0, bytes_for};
pub use fixed::{read_be, read_le, wide, write_be, write_le};
pub use packed::{packed_size, read_fixed, read_packed, write_packed};
pub use part::{Part, part_of, within};
pub use refusal::{Refusal, refuse, refuse_part};
pub use signed::{in_halves, signed_of, top_of, twos_of};
pub use store::{has_room, write_bytes};
