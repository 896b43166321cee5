// The characters of a Word, and the cursor over token rows (the lexer's lib.rs).
#![tactic(auto)]

mod characters;
mod cursor;

pub use characters::{char_len, is_utf8};
pub use cursor::{Column, Lexer, cell};
