// A recorded case is replayed, and what came of the cases is counted.
#![tactic(auto)]

mod case;
mod tally;

pub use case::{Replayed, replay};
pub use tally::Tally;
