// Sheets: a sheet's bytes are read into lent numbers.
// Any bytes and lengths are taken, and nothing is written where the answer says that it was not.
#![tactic(auto)]

mod big_endian;
mod input;
mod placed;
mod sections;
mod sheet;

pub use big_endian::{byte, number};
pub use input::read_full;
pub use sections::Sections;
pub use sheet::{Unread, read};
