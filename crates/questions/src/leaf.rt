// Leaves: whether a row is one inside the text, and its text as that part of the caller's.
ghost use Rattle.std.specs.Prelude.{◌≡◌, ◌<◌, ◌^◌};
ghost use Rattle.rules.specs.Questions.{row_count, range_at, is_leaf, leaf_range};
ghost use Rattle.questions.specs.Stands.{range_of};
ghost use Rattle.questions.specs.Contract.{LeafText};

use crate::rows::{Column, cell, tagged};
use syntax::Tag;

// Where a part of the text starts, and how many bytes it has.
#[derive(Clone, Copy)]
pub struct LeafRange {
    pub start: usize,
    pub size: usize,
}

// The range that a row names.
#[tactic(auto, unfolding(rules::specs::Questions::range_at))]
fn range_at(tree: &[u32], row: usize) -> LeafRange
    requires { row < row_count tree.now }
    ensures { (range_of result ≡ range_at tree.now row) × (result.start < 2 ^ 32) × (result.size < 2 ^ 32) }
{
    LeafRange {
        start: cell(tree, row, Column::Start as usize) as usize,
        size: cell(tree, row, Column::Length as usize) as usize,
    }
}

// Whether the row is a leaf inside the text.
#[tactic(auto, using(crate::proofs::Tagged::there), unfolding(rules::specs::Questions::is_leaf))]
pub fn is_leaf(text: &[u8], tree: &[u32], row: usize) -> bool
    ensures { result ≡ is_leaf text.now tree.now row }
{
    if !tagged(Tag::Leaf as u32, tree, row) {
        return false;
    }
    let range = range_at(tree, row);
    range.start + range.size <= text.len()
}

// Where the text of a leaf stands. For a leaf outside the text, another row or no row: nothing at the text's start.
#[tactic(auto, using(crate::proofs::Tagged::leaf_there), unfolding(rules::specs::Questions::leaf_range))]
pub fn leaf_range(text: &[u8], tree: &[u32], row: usize) -> LeafRange
    ensures { range_of result ≡ leaf_range text.now tree.now row }
{
    if is_leaf(text, tree, row) {
        return range_at(tree, row);
    }
    LeafRange { start: 0, size: 0 }
}

// The text of a leaf: that part of the caller's text itself, or the empty part at its start.
#[tactic(auto, unfolding(rules::specs::Questions::leaf_text))]
pub fn leaf_text<'a>(text: &'a [u8], tree: &[u32], row: usize) -> &'a [u8]
    ensures { LeafText text.entry tree.now row result }
{
    let range = leaf_range(text, tree, row);
    let from = range.start;
    let to = from + range.size;
    &text[from..to]
}
