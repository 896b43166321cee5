// The public face: a text's token rows, the run, the questions about the rows that it gives, sheets and the listing of an answer.
#![tactic(auto)]

mod whole;

pub use listings::{Answer, Counts, NoRoom, list};
pub use questions::{
    LeafRange, is_display, is_inline, is_leaf, is_valid, is_whole, leaf_range, leaf_text,
};
pub use sheets::{Sections, Unread, read};
pub use syntax::{Refusal, Refused, Tables};
pub use tokeniser::tokenise;
pub use whole::run;
