// The lines of a listing, each written behind what stands there.
ghost use Rattle.std.specs.Prelude.{◌≡◌, [], ◌∷◌, ◌++◌, ◌/◌, min, length};
ghost use Rattle.rules.specs.Limits.{dropped_width};
ghost use Rattle.rules.specs.Listing.{line, decimal, line_break, numbered, tree_line, tree_lines, dropped_line, dropped_lines};
ghost use Rattle.rules.specs.Questions.{row_count};
ghost use Rattle.listings.specs.Contract.{Wrote};

use crate::write::{field, fields, number, put, word};
use syntax::{Limits, Tag};

const LINE_BREAK: u8 = b'\n';

// What follows the first word of a line: two numbers, and the line's end.
fn two_numbers(out: &mut [u8], at: usize, one: usize, other: usize) -> usize
    ensures { Wrote (numbered (one ∷ other ∷ []) ++ (line_break ∷ [])) out.old at out.new result }
{
    let half = field(out, at, one);
    let whole = field(out, half, other);
    put(out, whole, LINE_BREAK)
}

// A line of a word and two numbers.
pub fn head(out: &mut [u8], at: usize, first: &[u8], one: usize, other: usize) -> usize
    ensures { Wrote (line first.now (one ∷ other ∷ [])) out.old at out.new result }
{
    let named = word(out, at, first);
    two_numbers(out, named, one, other)
}

// What follows the first word of a line: numbers that stand side by side, and the line's end.
fn rest_of_line(out: &mut [u8], at: usize, numbers: &[u32]) -> usize
    ensures { Wrote (numbered numbers.now ++ (line_break ∷ [])) out.old at out.new result }
{
    let next = fields(out, at, numbers);
    put(out, next, LINE_BREAK)
}

// A line of a depth, and the numbers of a row that say something.
fn depth_line(out: &mut [u8], at: usize, depth: usize, numbers: &[u32]) -> usize
    ensures { Wrote (line (decimal depth) numbers.now) out.old at out.new result }
{
    let next = number(out, at, depth);
    rest_of_line(out, next, numbers)
}

// The line of a row: of a start its depth, kind and token, of a leaf also start and length before the token, of any other row none.
#[tactic(auto, unfolding(rules::specs::Listing::tree_line))]
fn tree_line(out: &mut [u8], at: usize, row: &[u32; Limits::TREE_WIDTH], depth: usize) -> usize
    ensures { Wrote (tree_line row.now 0 depth) out.old at out.new result }
{
    let [tag, kind, _, _, token] = *row;
    if tag == Tag::Start.number() {
        return depth_line(out, at, depth, &[kind, token]);
    }
    if tag == Tag::Leaf.number() {
        return depth_line(out, at, depth, &row[1..]);
    }
    at
}

// The lines of the first rows, of as many as there are.
pub fn tree_lines(out: &mut [u8], at: usize, tree: &[u32], count: usize) -> usize
    ensures { Wrote (tree_lines tree.now (min count (row_count tree.now)) 0 0) out.old at out.new result }
{
    let (rows, _) = tree.as_chunks::<{ Limits::TREE_WIDTH }>();
    let mut next = at;
    let mut depth = 0;
    for row in &rows[..count.min(rows.len())] {
        next = tree_line(out, next, row, depth);
        depth = Tag::open_after(row[0], depth);
    }
    next
}

// A line of a word and numbers that stand side by side.
fn word_line(out: &mut [u8], at: usize, first: &[u8], numbers: &[u32]) -> usize
    ensures { Wrote (line first.now numbers.now) out.old at out.new result }
{
    let next = word(out, at, first);
    rest_of_line(out, next, numbers)
}

// The line of a dropped row.
#[tactic(auto, unfolding(rules::specs::Listing::dropped_line))]
fn dropped_line(out: &mut [u8], at: usize, row: &[u32; Limits::DROPPED_WIDTH]) -> usize
    ensures { Wrote (dropped_line row.now 0) out.old at out.new result }
{
    word_line(out, at, b"d", row)
}

// The lines of the first dropped rows, of as many as there are.
pub fn dropped_lines(out: &mut [u8], at: usize, dropped: &[u32], count: usize) -> usize
    ensures { Wrote (dropped_lines dropped.now (min count (length dropped.now / dropped_width)) 0) out.old at out.new result }
{
    let (rows, _) = dropped.as_chunks::<{ Limits::DROPPED_WIDTH }>();
    let mut next = at;
    for row in &rows[..rows.len().min(count)] {
        next = dropped_line(out, next, row);
    }
    next
}
