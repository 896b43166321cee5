// The rows of a formula: its matching finish, its first and its last token.
ghost use Rattle.std.specs.Prelude.{◌≡◌, ◌+◌, ◌-◌, ◌<◌, ◌≤◌, ◌^◌};
ghost use Rattle.rules.specs.Questions.{row_count, matching_finish, formula, first_from, last_before, first_token, last_token};

use crate::rows::{Column, cell, tagged};
use syntax::{Limits, SyntaxKind, Tag};

// The finish that matches the start in this row: the first later row where starts and finishes balance, with no tag over 2 before it.
#[tactic(auto, using(crate::proofs::Walks::balances))]
fn matching_finish(tree: &[u32], row: usize) -> Option<usize>
    requires { row < row_count tree.now }
    ensures { result ≡ matching_finish tree.now row }
{
    let rows = tree.len() / Limits::TREE_WIDTH;
    let mut deep: usize = 1;
    for at in row + 1..rows {
        let tag = cell(tree, at, Column::Tag as usize);
        if Tag::Finish.number() < tag {
            return None;
        }
        deep = Tag::open_after(tag, deep);
        if deep == 0 {
            return Some(at);
        }
    }
    None
}

// The finish of the formula that starts in this row, if one does.
#[tactic(auto, using(crate::proofs::Tagged::there), unfolding(rules::specs::Questions::formula))]
pub fn formula(tree: &[u32], row: usize) -> Option<usize>
    ensures { result ≡ formula tree.now row }
{
    if tagged(Tag::Start as u32, tree, row)
        && cell(tree, row, Column::Kind as usize) == SyntaxKind::ItemFormula.number()
    {
        return matching_finish(tree, row);
    }
    None
}

// The first token from a row on and before another: a start is passed, for its first child is the next row.
#[tactic(auto, using(crate::proofs::Walks::first_rows))]
fn first_from(tree: &[u32], from: usize, to: usize) -> Option<usize>
    requires { (from ≤ to) × (to ≤ row_count tree.now) }
    ensures { result ≡ first_from tree.now (to - from) from }
{
    for at in from..to {
        let tag = cell(tree, at, Column::Tag as usize);
        if tag == Tag::Leaf.number() {
            return Some(at);
        }
        if tag != Tag::Start.number() {
            return None;
        }
    }
    None
}

// The last token before a row: a finish is passed, for its last child ends in the row before.
#[tactic(auto, using(crate::proofs::Walks::last_rows))]
fn last_before(tree: &[u32], to: usize) -> Option<usize>
    requires { to ≤ row_count tree.now }
    ensures { result ≡ last_before tree.now to }
{
    for at in (0..to).rev() {
        let tag = cell(tree, at, Column::Tag as usize);
        if tag == Tag::Leaf.number() {
            return Some(at);
        }
        if tag != Tag::Finish.number() {
            return None;
        }
    }
    None
}

// The row of the formula's first token.
#[tactic(auto, using(crate::proofs::Formulas::found), unfolding(rules::specs::Questions::first_token))]
pub fn first_token(tree: &[u32], row: usize) -> Option<usize>
    ensures { result ≡ first_token tree.now row }
{
    let finish = formula(tree, row)?;
    first_from(tree, row + 1, finish)
}

// The row of its last.
#[tactic(auto, using(crate::proofs::Formulas::found), unfolding(rules::specs::Questions::last_token))]
pub fn last_token(tree: &[u32], row: usize) -> Option<usize>
    ensures { result ≡ last_token tree.now row }
{
    let finish = formula(tree, row)?;
    last_before(tree, finish)
}
