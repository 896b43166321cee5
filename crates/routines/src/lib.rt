// The parser's routines over tokens and held trivia: what is read becomes leaves, or is dropped.
#![tactic(auto)]

mod held;
mod question;
mod tokens;

pub use held::{extract_holding_trivia, hold_trivia, ignore_holding_trivia};
pub use question::{Question, TextComponent, Trivia};
pub use tokens::{
    asked, eat, eat_as, eat_if, eat_while, next_is, one_in, single_char, trivia, word_character,
    word_next,
};
