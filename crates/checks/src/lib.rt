// What is checked before reading: refusals 1 to 4, each with its place.
#![tactic(auto)]

mod limits;
mod order;
mod shapes;
mod tokens;

pub use order::check;
