// What was dropped of a run, put back among its leaf texts where the dropped list says, beside the token texts joined in order.
ghost use Rattle.std.specs.Prelude.{◌≡◌, ◌≤◌, ◌<◌, ◌/◌, MatchOption, true, false, length};
ghost use Rattle.rules.specs.PutBack.{stored, put_back, rows_of};
ghost use Rattle.listings.specs.Contract.{Wrote};
ghost use Rattle.put_back.specs.Back.{counted, back_of, stand, Returned};

use crate::texts::{dropped_after, joined, part};
use compare::same;
use listings::Counts;
use syntax::{Limits, Tag};

// Before each leaf's text the texts of what was dropped there, and likewise behind the last leaf's.
fn put_back(
    out: &mut [u8],
    text: &[u8],
    tokens: &[u32],
    tree: &[[u32; Limits::TREE_WIDTH]],
    dropped: &[[u32; Limits::DROPPED_WIDTH]],
) -> usize
    ensures { Wrote (put_back (stored text.now tokens.now tree.now dropped.now)) out.old 0 out.new result }
{
    let mut next = 0;
    let mut leaves = 0;
    for row in tree {
        let [tag, _, start, size, _] = *row;
        if tag == Tag::Leaf.number() {
            let behind_dropped = dropped_after(out, next, text, tokens, dropped, leaves);
            next = part(out, behind_dropped, text, start, size);
            leaves += 1;
        }
    }
    dropped_after(out, next, text, tokens, dropped, leaves)
}

// So many rows of a table, if it has them.
fn first_rows<const WIDTH: usize>(table: &[u32], count: usize) -> Option<&[[u32; WIDTH]]>
    requires { 0 < WIDTH }
    ensures { MatchOption result (length table.entry.now / WIDTH < count)
        (λ rows. (count ≤ length table.entry.now / WIDTH) × (rows.now ≡ rows_of WIDTH count table.entry.now)) }
{
    let (rows, _) = table.as_chunks::<WIDTH>();
    rows.get(..count)
}

// What is put back of the rows that count, if they stand in the buffers.
fn counted_back(
    out: &mut [u8],
    text: &[u8],
    tokens: &[u32],
    tree: &[u32],
    dropped: &[u32],
    counts: Counts,
) -> Option<usize>
    ensures { let run = counted text.now tokens.now tree.now counts.rows dropped.now counts.dropped in
        MatchOption result ((stand run ≡ false) × (out.new ≡ out.old)) (λ size. (stand run ≡ true) × Wrote (back_of run) out.old 0 out.new size) }
{
    let tree_rows = first_rows::<{ Limits::TREE_WIDTH }>(tree, counts.rows)?;
    let dropped_rows = first_rows::<{ Limits::DROPPED_WIDTH }>(dropped, counts.dropped)?;
    Some(put_back(out, text, tokens, tree_rows, dropped_rows))
}

// Whether the token texts return. No also where the rows are not in the buffers, or the texts have no room in the bytes lent for them.
pub fn texts_return(
    text: &[u8],
    tokens: &[u32],
    tree: &[u32],
    dropped: &[u32],
    counts: Counts,
    back: &mut [u8],
    whole: &mut [u8],
) -> bool
    ensures { let run = counted text.now tokens.now tree.now counts.rows dropped.now counts.dropped in
        Returned run back.old whole.old result back.new whole.new }
{
    let Some(size) = counted_back(back, text, tokens, tree, dropped, counts) else {
        return false;
    };
    let wanted = joined(whole, text, tokens);
    if size != wanted {
        return false;
    }
    if back.len() < size {
        return false;
    }
    if whole.len() < size {
        return false;
    }
    same(back, whole, size)
}
