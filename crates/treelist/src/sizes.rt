// The sizes of the program's buffers.
ghost use Rattle.std.specs.Prelude.{◌≡◌, [], ◌∷◌, ◌+◌, ◌*◌};
ghost use Rattle.rules.specs.Limits.{tree_width, dropped_width};
ghost use Rattle.rules.specs.Sheet.{most_bytes};
ghost use Rattle.rules.specs.Treelist.{tree_rows, dropped_rows, most_numbers, most_printed};

use sheets::Sections;
use syntax::Limits;

#[derive(Clone, Copy)]
pub struct Sizes;

impl Sizes {
    // "reads one sheet from standard input, at most 32,768 bytes": one byte more, so that a longer sheet is seen to be longer.
    pub const SHEET: usize = Sections::MOST_BYTES + 1;
    // "numbers 4 bytes": as many as a sheet has room for.
    pub const TABLE: usize = Sections::MOST_NUMBERS;
    // "now with 3,276 tree rows" (02, #101)
    pub const TREE_ROWS: usize = 3_276;

    pub const TREE: usize = Self::TREE_ROWS * Limits::TREE_WIDTH;
    // "3 numbers per token": a dropped row for each token that a sheet has room for.
    pub const DROPPED_ROWS: usize = Self::TABLE / Limits::TOKEN_WIDTH;

    pub const DROPPED: usize = Self::DROPPED_ROWS * Limits::DROPPED_WIDTH;
    // More bytes than the lines of so many rows have.
    pub const OUT: usize = 262_144;

    // All of them, in order. The contract holds each to the rules' number.
    pub fn numbers() -> [usize; 7]
        ensures { result ≡ ((most_bytes + 1) ∷ most_numbers ∷ tree_rows ∷ (tree_rows * tree_width) ∷ dropped_rows ∷ (dropped_rows * dropped_width)
            ∷ most_printed ∷ []) }
    {
        [
            Self::SHEET,
            Self::TABLE,
            Self::TREE_ROWS,
            Self::TREE,
            Self::DROPPED_ROWS,
            Self::DROPPED,
            Self::OUT,
        ]
    }
}
