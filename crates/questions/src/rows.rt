// The numbers of a tree row.
ghost use Rattle.std.specs.Prelude.{◌≡◌, ◌<◌};
ghost use Rattle.rules.specs.Limits.{tree_width};
ghost use Rattle.rules.specs.Questions.{row_count, tagged};
ghost use Rattle.rules.specs.Tables.{cell};

use syntax::Limits;

// The columns of a tree row that the questions read.
#[derive(Clone, Copy)]
pub enum Column {
    Tag = 0,
    Kind = 1,
    Start = 2,
    Length = 3,
}

// The number in a column of a row. As `cell` of the lexer but for the width and the columns; over both the width would have to stand at every call.
pub fn cell(tree: &[u32], row: usize, column: usize) -> u32
    requires { (row < row_count tree.now) × (column < tree_width) }
    ensures { result ≡ cell tree_width tree.now row column }
{
    let at = row * Limits::TREE_WIDTH + column;
    tree[at]
}

// Whether there is such a row, and it has the tag.
#[tactic(auto, unfolding(rules::specs::Questions::tagged))]
pub fn tagged(tag: u32, tree: &[u32], row: usize) -> bool
    ensures { result ≡ tagged tag tree.now row }
{
    row < tree.len() / Limits::TREE_WIDTH && cell(tree, row, Column::Tag as usize) == tag
}
