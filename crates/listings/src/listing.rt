// The listing of an answer, into a lent buffer.
ghost use Rattle.std.specs.Prelude.{◌≡◌};
ghost use Rattle.rules.specs.Listing.{listing};
ghost use Rattle.listings.specs.Contract.{Wrote, row_lines, Lists};
ghost use Rattle.listings.specs.Stands.{answer_of};

use crate::answer::{Answer, Counts};
use crate::lines::{dropped_lines, head, tree_lines};

// The lines have no room: a buffer of so many bytes is needed. A listing of 2^64 bytes and more counts for the largest number.
#[derive(Clone, Copy, PartialEq, Eq)]
pub struct NoRoom {
    pub needed: usize,
}

// The lines of the tree's rows and then of the dropped rows, as many of each as there are.
fn row_lines(out: &mut [u8], at: usize, tree: &[u32], dropped: &[u32], counts: Counts) -> usize
    ensures { Wrote (row_lines tree.now counts.rows dropped.now counts.dropped) out.old at out.new result }
{
    let next = tree_lines(out, at, tree, counts.rows);
    dropped_lines(out, next, dropped, counts.dropped)
}

// The lines, as far as the buffer has room, and how many bytes they have.
#[tactic(auto, unfolding(rules::specs::Listing::listing))]
fn write(answer: Answer, tree: &[u32], dropped: &[u32], out: &mut [u8]) -> usize
    ensures { Wrote (listing (answer_of answer) tree.now dropped.now) out.old 0 out.new result }
{
    match answer {
        Ok(counts) => {
            let next = head(out, 0, b"ok", counts.rows, counts.dropped);
            row_lines(out, next, tree, dropped, counts)
        }
        Err(refused) => {
            let number = refused.number as usize;
            head(out, 0, b"refused", number, refused.place)
        }
    }
}

// The listing whole, and how many bytes it has; or nothing.
pub fn list(answer: Answer, tree: &[u32], dropped: &[u32], out: &mut [u8]) -> Result<usize, NoRoom>
    ensures { Lists (listing (answer_of answer) tree.now dropped.now) out.old result out.new }
{
    // Into no room the lines are counted.
    let needed = write(answer, tree, dropped, &mut out[..0]);
    if out.len() < needed {
        return Err(NoRoom { needed });
    }
    write(answer, tree, dropped, out);
    Ok(needed)
}
