// What a shape row says by its numbers (mitex-spec's `CommandSpecItem`, `ArgShape` and `ArgPattern`). They are constants and no enums: they come in a
// lent table, and what is asked of them (`of_class`, `start_match`, `value_right` ..) answers for each number, those that no row may have too.
ghost use Rattle.std.specs.Prelude.{◌≡◌};
ghost use Rattle.syntax.specs.Numbers.{classes, forms};

#[derive(Clone, Copy)]
pub struct Class;

impl Class {
    pub const COMMAND: u32 = 1;

    pub const ENVIRONMENT: u32 = 2;

    // All of them, in order. The contract holds each to 01's number.
    pub fn numbers() -> [u32; 2]
        ensures { result ≡ classes }
    {
        [Self::COMMAND, Self::ENVIRONMENT]
    }
}

#[derive(Clone, Copy)]
pub struct Form;

impl Form {
    pub const NONE: u32 = 0;

    pub const FIXED: u32 = 1;

    pub const RANGE: u32 = 2;

    pub const GREEDY: u32 = 3;

    pub const GLOB: u32 = 4;

    pub const LEFT1: u32 = 5;

    pub const INFIX_GREEDY: u32 = 6;
    // The largest value of a fixed or range form.
    pub const MOST: u32 = 255;

    // All of them, in order. The contract holds each to 01's number.
    pub fn numbers() -> [u32; 8]
        ensures { result ≡ forms }
    {
        [
            Self::NONE,
            Self::FIXED,
            Self::RANGE,
            Self::GREEDY,
            Self::GLOB,
            Self::LEFT1,
            Self::INFIX_GREEDY,
            Self::MOST,
        ]
    }
}
