// An answer with its buffers, beside one that is recorded in bytes (README.md of the data folder of `cases` has the format).
#![tactic(auto)]

mod recorded;
mod rows;

pub use recorded::{BEFORE, is_recorded};
