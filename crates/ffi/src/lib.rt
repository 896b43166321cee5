// The public face for C and Rust: numbers and slices alone. A slice is a pointer and a length there; `include/cartglaze.h` has the same functions.
#![tactic(auto)]

mod listing;
mod sheet;
mod tokens;

ghost use Rattle.std.specs.Prelude.{◌≡◌};
ghost use Rattle.rules.specs.Questions.{is_display, is_inline, is_valid, is_whole, is_leaf, leaf_range};
ghost use Rattle.rules.specs.Run.{run as run_of};
ghost use Rattle.syntax.specs.Tables.{tables};
ghost use Rattle.ffi.specs.Exported.{ran_from};

use cartglaze::{Tables, is_display, is_inline, is_leaf, is_valid, is_whole, leaf_range, run};
pub use listing::cartglaze_list;
pub use sheet::cartglaze_read;
pub use tokens::cartglaze_tokenise;

// Whether the run is accepted. Accepted: the counts of tree rows and of dropped rows; refused: the number and the place.
#[unsafe(no_mangle)]
pub extern "C" fn cartglaze_run(
    text: &[u8],
    tokens: &[u32],
    shapes: &[u32],
    states: &[u32],
    tree: &mut [u32],
    dropped: &mut [u32],
    first: &mut usize,
    second: &mut usize,
) -> bool
    ensures { let t = tables text.now tokens.now shapes.now states.now in
        let ran = ran_from result first.new second.new tree.new dropped.new in
        run_of t tree.old dropped.old ≡ ran }
{
    let tables = Tables {
        text,
        tokens,
        shapes,
        states,
    };
    match run(&tables, tree, dropped) {
        Ok(counts) => {
            *first = counts.rows;
            *second = counts.dropped;
            true
        }
        Err(refused) => {
            *first = refused.number as usize;
            *second = refused.place;
            false
        }
    }
}

// Whether the row is a display formula.
#[unsafe(no_mangle)]
pub extern "C" fn cartglaze_is_display(text: &[u8], tree: &[u32], row: usize) -> bool
    ensures { result ≡ is_display text.now tree.now row }
{
    is_display(text, tree, row)
}

// Whether the row is an inline formula.
#[unsafe(no_mangle)]
pub extern "C" fn cartglaze_is_inline(text: &[u8], tree: &[u32], row: usize) -> bool
    ensures { result ≡ is_inline text.now tree.now row }
{
    is_inline(text, tree, row)
}

// Whether the row is a formula whose first and last token match.
#[unsafe(no_mangle)]
pub extern "C" fn cartglaze_is_valid(text: &[u8], tree: &[u32], row: usize) -> bool
    ensures { result ≡ is_valid text.now tree.now row }
{
    is_valid(text, tree, row)
}

// Whether the row is a formula whose first and last child are different leaves that match.
#[unsafe(no_mangle)]
pub extern "C" fn cartglaze_is_whole(text: &[u8], tree: &[u32], row: usize) -> bool
    ensures { result ≡ is_whole text.now tree.now row }
{
    is_whole(text, tree, row)
}

// Whether the row is a leaf inside the text.
#[unsafe(no_mangle)]
pub extern "C" fn cartglaze_is_leaf(text: &[u8], tree: &[u32], row: usize) -> bool
    ensures { result ≡ is_leaf text.now tree.now row }
{
    is_leaf(text, tree, row)
}

// Where the text of the row's leaf starts in the caller's, which has all of it.
#[unsafe(no_mangle)]
pub extern "C" fn cartglaze_leaf_start(text: &[u8], tree: &[u32], row: usize) -> usize
    ensures { result ≡ (leaf_range text.now tree.now row).start }
{
    leaf_range(text, tree, row).start
}

// How many bytes it has.
#[unsafe(no_mangle)]
pub extern "C" fn cartglaze_leaf_length(text: &[u8], tree: &[u32], row: usize) -> usize
    ensures { result ≡ (leaf_range text.now tree.now row).size }
{
    leaf_range(text, tree, row).size
}
