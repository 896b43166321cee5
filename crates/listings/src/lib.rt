// The listing of an answer: its lines are written into lent bytes.
// Any numbers and lengths are taken, and nothing is written where the answer says that it was not.
#![tactic(auto)]

mod answer;
mod lines;
mod listing;
mod write;

pub use answer::{Answer, Counts};
pub use listing::{NoRoom, list};
pub use write::put;
