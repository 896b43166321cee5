// Rows in a buffer of numbers: one is written, and all from one on move down to make room for others.
ghost use Rattle.std.specs.Prelude.{◌≡◌, ◌+◌, ◌*◌, ◌-◌, ◌≤◌, [], ◌∷◌, ◌++◌, length, take};
ghost use Rattle.rules.specs.Limits.{tree_width};
ghost use Rattle.syntax.specs.Rows.{tag_number};
ghost use Rattle.builder.specs.Contract.{written, start_rows, in_front};

use syntax::{Limits, Tag};

// A row is written over what stands there.
pub fn put(tree: &mut [u32], row: usize, tag: Tag, kind: u32, start: u32, size: u32, token: u32)
    requires { row * tree_width + tree_width ≤ length tree.old }
    ensures { tree.new ≡ written tree_width row (tag_number tag ∷ kind ∷ start ∷ size ∷ token ∷ []) tree.old }
{
    let at = row * Limits::TREE_WIDTH;
    tree[at] = tag.number();
    tree[at + 1] = kind;
    tree[at + 2] = start;
    tree[at + 3] = size;
    tree[at + 4] = token;
}

// All but the last `by` numbers move down by so many; the first `by` stay.
fn shift(part: &mut [u32], by: usize)
    requires { by ≤ length part.old }
    ensures { part.new ≡ take by part.old ++ take (length part.old - by) part.old }
{
    part.copy_within(..part.len() - by, by);
}

// The start rows of two nodes, the inner one's behind the outer one's, go in front of the rows of a part, whose last two rows' places are free.
pub fn insert_starts(part: &mut [u32], outer: u32, inner: u32, place: u32)
    requires { 2 * tree_width ≤ length part.old }
    ensures { part.new ≡ in_front tree_width (start_rows place outer inner) part.old }
{
    shift(part, 2 * Limits::TREE_WIDTH);
    put(part, 0, Tag::Start, outer, 0, 0, place);
    put(part, 1, Tag::Start, inner, 0, 0, place);
}
