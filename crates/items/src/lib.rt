// What an item that begins with a kind of token is (`content` of parser.rs), what a shape asks for, and what the next argument is.
#![tactic(auto)]

mod choice;
mod item;
mod shape;

pub use choice::{Choice, Piece, choose, greedy_stops};
pub use item::{Item, attachable, closer, group_kind, is_command_name, is_if, item_of};
pub use shape::Shape;
