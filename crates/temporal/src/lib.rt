// The stored temporals, read and written. Ports mysql_common 0.38.2: binlog/misc.rs, and the arms of binlog/value.rs for old temporals.
#![tactic(auto)]

mod direct;
mod domain;
mod fraction;
mod judge;
mod misc;
mod parts;
mod read;
mod storage;
mod stored;
mod write;

pub use direct::{read_datetime2, read_newdate, read_time2, read_timestamp2};
pub use domain::in_domain;
pub use parts::{Date, Datetime, Seconds, Temporal, Time};
pub use read::read_temporal;
pub use storage::{Storage, temporal_size};
pub use write::write_temporal;
