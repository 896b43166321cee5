// The scope of a list (parser.rs), and which kinds of tokens stop a list.
ghost use Rattle.std.specs.Prelude.{◌≡◌};
ghost use Rattle.rules.specs.Scope.{stops};
ghost use Rattle.syntax.specs.ParseScope.{number_of, scope_at, scope_of};

use crate::limits::Limits;

#[derive(Clone, Copy, PartialEq, Eq)]
pub enum ParseScope {
    // The root: nothing stops it.
    Root = 0,
    // A formula in dollars, `$..$` or `$$..$$`.
    DollarFormula = 1,
    // A formula in commands, `\(..\)` or `\[..\]`.
    CmdFormula = 2,
    // An environment, `\begin{..}..\end{..}`.
    Environment = 3,
    // The body of `\left..\right`.
    LR = 4,
    // A curly group, `{..}`.
    CurlyItem = 5,
    // A bracket group, `[..]`.
    BracketItem = 6,
    // A parenthesis group, `(..)`.
    ParenItem = 7,
}

impl ParseScope {
    // The stop table, eight scopes by forty kinds. A line has its scope's number in its name and a digit for each kind of token, the last one for
    // kind 0: 1 where that kind stops a list of that scope. `}` is kind 6, `]` 7, `)` 8, Dollar 22, EndEnvironment 28, EndMath 30, Right 39.
    const STOPS_0: u64 = 0b0000000000000000000000000000000000000000; // Root

    const STOPS_1: u64 = 0b1000000000010000010000000000000001000000; // DollarFormula

    const STOPS_2: u64 = 0b1000000001010000000000000000000001000000; // CmdFormula

    const STOPS_3: u64 = 0b0000000000010000000000000000000001000000; // Environment

    const STOPS_4: u64 = 0b1000000000010000000000000000000001000000; // LR

    const STOPS_5: u64 = 0b0000000000000000000000000000000001000000; // CurlyItem

    const STOPS_6: u64 = 0b1000000000010000000000000000000011000000; // BracketItem

    const STOPS_7: u64 = 0b1000000000010000000000000000000101000000; // ParenItem

    // The scope's number.
    pub fn number(self) -> usize
        ensures { result ≡ number_of self }
    {
        self as usize
    }

    // The scope of a number; a number that is none's is the root's.
    pub fn numbered(number: usize) -> Self
        ensures { scope_of result ≡ scope_at number }
    {
        match number {
            1 => Self::DollarFormula,
            2 => Self::CmdFormula,
            3 => Self::Environment,
            4 => Self::LR,
            5 => Self::CurlyItem,
            6 => Self::BracketItem,
            7 => Self::ParenItem,
            _ => Self::Root,
        }
    }

    // Whether a token of this kind stops a list of this scope. A number over 39 is no token's kind and stops none.
    // A `match` gives the line, since the compiler lays an array out anew at each look.
    pub fn stop_by_scope(self, kind: u32) -> bool
        ensures { result ≡ stops (scope_of self) kind }
    {
        let column = kind as usize;
        if column < Limits::KINDS {
            let line = match self {
                Self::Root => Self::STOPS_0,
                Self::DollarFormula => Self::STOPS_1,
                Self::CmdFormula => Self::STOPS_2,
                Self::Environment => Self::STOPS_3,
                Self::LR => Self::STOPS_4,
                Self::CurlyItem => Self::STOPS_5,
                Self::BracketItem => Self::STOPS_6,
                Self::ParenItem => Self::STOPS_7,
            };
            (line >> column) % 2 == 1
        } else {
            false
        }
    }
}
