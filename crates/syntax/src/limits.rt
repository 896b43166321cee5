// The limits of 01, and how many numbers a row of each table has.
ghost use Rattle.std.specs.Prelude.{◌≡◌};
ghost use Rattle.syntax.specs.Numbers.{limits};

#[derive(Clone, Copy)]
pub struct Limits;

impl Limits {
    // Bytes of text.
    pub const TEXT: usize = 65_535;
    // Rows of each table that comes in.
    pub const TOKENS: usize = 16_384;

    pub const SHAPES: usize = 4_096;

    pub const STATES: usize = 4_096;
    // Nodes that may be open at once, the root counted.
    pub const NODES: usize = 128;
    // Kinds of tokens, and kinds of tree rows.
    pub const KINDS: usize = 40;

    pub const SYNTAX_KINDS: usize = 45;
    // Numbers in a row.
    pub const TOKEN_WIDTH: usize = 4;

    pub const SHAPE_WIDTH: usize = 3;

    pub const STATE_WIDTH: usize = 3;

    pub const TREE_WIDTH: usize = 5;

    pub const DROPPED_WIDTH: usize = 3;

    // All of them, in order. The contract holds each to 01's number.
    pub fn numbers() -> [usize; 12]
        ensures { result ≡ limits }
    {
        [
            Self::TEXT,
            Self::TOKENS,
            Self::SHAPES,
            Self::STATES,
            Self::NODES,
            Self::KINDS,
            Self::SYNTAX_KINDS,
            Self::TOKEN_WIDTH,
            Self::SHAPE_WIDTH,
            Self::STATE_WIDTH,
            Self::TREE_WIDTH,
            Self::DROPPED_WIDTH,
        ]
    }
}
