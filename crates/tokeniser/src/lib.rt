// From formula text to token rows: a text of ASCII bytes is cut into tokens, and their rows go into a lent buffer.
#![tactic(auto)]

mod class;
mod command;
mod lexeme;
mod name;
mod rows;

pub use rows::tokenise;
