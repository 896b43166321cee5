// Whether the rows that a run gave are those that are recorded.
ghost use Rattle.std.specs.Prelude.{◌≡◌, ◌+◌, ◌^◌, ◌<◌};
ghost use Rattle.recorded.specs.Recorded.{short_at, Form, tree_form, dropped_form, rows_end};
ghost use Rattle.recorded.specs.Regular.{Regular, tree_regular, dropped_regular};
ghost use Rattle.recorded.specs.Compared.{Compares, RowIs, RowsAre};

use compare::{stand_at, wide};
use sheets::{byte, number};
use syntax::{Limits, Tag};

// Tag and kind of a tree row stand in one byte, tag * 64 + kind.
const KINDS: usize = 64;

// A number of two bytes, big-endian. A byte past the end counts as 0: a case that is cut short is replayed, and differs.
fn short(case: &[u8], at: usize) -> usize
    requires { at < 2 ^ 40 }
    ensures { (result ≡ short_at case.now at) × (result < 2 ^ 16) }
{
    byte(case, at) * 256 + byte(case, at + 1)
}

// How the rows of a buffer are recorded.
pub trait Row {
    ghost form: { Form };

    ghost regular: { Regular form };

    // Where the bytes behind a recorded row begin, if this row is that one.
    fn behind(case: &[u8], at: usize, rows: &[u32], row: usize) -> Option<usize>
        requires { (at < 2 ^ 38) × (row < 2 ^ 32) }
        ensures { Compares (at + form.bytes case.now at) (RowIs form case.now at rows.now row) result };
}

// A row of the tree: tag and kind in one byte, its token in two; a leaf's start and length in two each.
pub struct TreeRow;

impl Row for TreeRow {
    ghost form = { tree_form };

    ghost regular = { tree_regular };

    fn behind(case: &[u8], at: usize, tree: &[u32], row: usize) -> Option<usize> {
        let tag = byte(case, at) / KINDS;
        let kind = byte(case, at) % KINDS;
        let token = short(case, at + 1);
        let from = row * Limits::TREE_WIDTH;
        if tag == wide(Tag::Leaf.number()) {
            let start = short(case, at + 3);
            let size = short(case, at + 5);
            return stand_at(tree, from, &[tag, kind, start, size, token]).then_some(at + 7);
        }
        stand_at(tree, from, &[tag, kind, 0, 0, token]).then_some(at + 3)
    }
}

// A dropped row: token in two bytes, reason in one, leaves in four.
pub struct DroppedRow;

impl Row for DroppedRow {
    ghost form = { dropped_form };

    ghost regular = { dropped_regular };

    fn behind(case: &[u8], at: usize, dropped: &[u32], row: usize) -> Option<usize> {
        let recorded = [short(case, at), byte(case, at + 2), number(case, at + 3)];
        stand_at(dropped, row * Limits::DROPPED_WIDTH, &recorded).then_some(at + 7)
    }
}

// Where the bytes behind so many rows begin that are recorded from `at` on, if those of the buffer are these.
pub fn rows_from<R: Row>(case: &[u8], at: usize, rows: &[u32], count: usize) -> Option<usize>
    requires { (at < 2 ^ 37) × (count < 2 ^ 32) }
    ensures { let case = case.entry.now in
        Compares (rows_end R.form case at count) (RowsAre R.form case at rows.now count) result }
{
    let mut next = at;
    for row in 0..count {
        next = R::behind(case, next, rows, row)?;
    }
    Some(next)
}
