// Wide rows read faster: a plan, made once of a record and presence bits, and rows read by it, image after image. Added by request 11
// of document 02. And rows written by it, which is our own.
#![tactic(auto)]

mod fast;
mod item;
mod make;
mod numbers;
mod put;
mod row;
mod run;

pub use make::make_plan;
pub use numbers::VALUE_NUMBERS;
pub use put::ItemCursor;
pub use row::RowCursor;
