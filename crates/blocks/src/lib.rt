// An image that arrives in blocks. Added by document 02.
#![tactic(auto)]

mod call;
mod due;
mod end;
mod fit;
mod give;
mod hand;
mod lent;
mod open;
mod state;
mod turn;

pub use give::{LEAST_CARRY, begin};
pub use state::{Arrival, Arriving, BlockGiven, Given, Phase};
