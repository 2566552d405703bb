// The rows event: its parts under a map's record, and its row images one after the other. Added by document 02; the values in an image are
// read by `image`. The bytes that are lent are the event's body: without its header of 19 bytes, and without its checksum.
#![tactic(auto)]

mod event;
mod form;
mod images;
mod parts;

pub use event::{Rows, read_rows};
pub use images::{Image, Images, set_of};
