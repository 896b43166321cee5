// The questions about tree rows: a formula's four (three of `FormulaItem` of syntax.rs, and the strict one), whether a row is a leaf inside the
// text, and a leaf's text.
// Each has an answer for any numbers in the place of rows, and for any row. Text and rows stay two parameters, as C hands them over.
#![tactic(auto)]

mod delimiter;
mod formula;
mod leaf;
mod matched;
mod rows;
mod tokens;

pub use formula::{is_display, is_inline, is_valid, is_whole};
pub use leaf::{LeafRange, is_leaf, leaf_range, leaf_text};
