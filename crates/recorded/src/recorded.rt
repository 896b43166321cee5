// An answer with its buffers, beside the one that is recorded.
ghost use Rattle.std.specs.Prelude.{◌^◌, ◌<◌};
ghost use Rattle.listings.specs.Stands.{ran_of};
ghost use Rattle.recorded.specs.Recorded.{Agrees};
ghost use Rattle.compare.specs.Tells.{Tells};

use crate::rows::{DroppedRow, TreeRow, rows_from};
use compare::{all_from, wide};
use listings::{Answer, Counts};
use sheets::number;
use syntax::{Limits, Refused};

// What the buffers hold before a run, so that what is not written can be told.
pub const BEFORE: u32 = 4_294_967_295;

// Whether it is recorded that a run is accepted with these counts and these buffers.
fn is_accepted(case: &[u8], at: usize, tree: &[u32], dropped: &[u32], counts: Counts) -> bool
    requires { at < 2 ^ 36 }
    ensures { Tells (Agrees case.now at (ran_of (Ok counts) tree.now dropped.now)) result }
{
    if number(case, at) != 0 {
        return false;
    }
    if counts.rows != number(case, at + 4) {
        return false;
    }
    if counts.dropped != number(case, at + 8) {
        return false;
    }
    let tree_end = rows_from::<TreeRow>(case, at + 12, tree, counts.rows);
    let Some(next) = tree_end else {
        return false;
    };
    let dropped_end = rows_from::<DroppedRow>(case, next, dropped, counts.dropped);
    if dropped_end != Some(case.len()) {
        return false;
    }
    if !all_from(tree, counts.rows * Limits::TREE_WIDTH, BEFORE) {
        return false;
    }
    all_from(dropped, counts.dropped * Limits::DROPPED_WIDTH, BEFORE)
}

// Whether it is recorded that a run is refused with this number and place, and both buffers are zeros.
fn is_refused(case: &[u8], at: usize, tree: &[u32], dropped: &[u32], refused: Refused) -> bool
    requires { at < 2 ^ 36 }
    ensures { Tells (Agrees case.now at (ran_of (Err refused) tree.now dropped.now)) result }
{
    let recorded = number(case, at);
    if recorded == 0 {
        return false;
    }
    if wide(refused.number) != recorded {
        return false;
    }
    if refused.place != number(case, at + 4) {
        return false;
    }
    if at + 8 != case.len() {
        return false;
    }
    if !all_from(tree, 0, 0) {
        return false;
    }
    all_from(dropped, 0, 0)
}

// Whether an answer with its buffers is the one that is recorded from `at` on. The place stays a number beside the bytes, here and below: the format
// counts from it, and its bound is another one in each function.
pub fn is_recorded(case: &[u8], at: usize, tree: &[u32], dropped: &[u32], answer: Answer) -> bool
    requires { at < 2 ^ 36 }
    ensures { Tells (Agrees case.now at (ran_of answer tree.now dropped.now)) result }
{
    match answer {
        Ok(counts) => is_accepted(case, at, tree, dropped, counts),
        Err(refused) => is_refused(case, at, tree, dropped, refused),
    }
}
