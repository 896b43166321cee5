// The argument matcher (arg_match.rs): what a shape accepts as the next argument. The glob string is a state's number.
#![tactic(auto)]

ghost use Rattle.std.specs.Prelude.{◌≡◌};
ghost use Rattle.rules.specs.Matcher.{as_term, column, is_greedy, match_next, next_state, start_at_most, start_match};
ghost use Rattle.arg_match.specs.Answers.{accepted, argument_of, matched_of, matcher_of};

use syntax::{Form, Limits};

// What comes next, as the matcher sees it: a term, or what `[` or `(` begins (t, b, p).
#[derive(Clone, Copy)]
pub enum Argument {
    Term = 0,
    Bracket = 1,
    Paren = 2,
}

// What is still accepted.
#[derive(Clone, Copy)]
pub enum ArgMatcher {
    // Nothing.
    None,
    // At most so many terms, of which so many were accepted.
    AtMostTerm { max: u32, counter: u32 },
    // Everything.
    Greedy,
    // What the row of this state in the table says.
    Glob { state: u32 },
}

// The answer about what comes next: not accepted, accepted as a whole item, or accepted as a bare token; the last two with the matcher for what
// comes then.
#[derive(Clone, Copy)]
pub enum Matched {
    NotAccepted,
    Whole(ArgMatcher),
    Bare(ArgMatcher),
}

impl Argument {
    // The column of a state row.
    fn column(self) -> usize
        ensures { result ≡ column (argument_of self) }
    {
        self as usize
    }

    // Accepted as a term: a term is read whole, `[` or `(` counts as one and is eaten alone.
    fn as_term(self, next: ArgMatcher) -> Matched
        ensures { matched_of result ≡ as_term (argument_of self) (matcher_of next) }
    {
        match self {
            Self::Term => Matched::Whole(next),
            Self::Bracket | Self::Paren => Matched::Bare(next),
        }
    }
}

// The next state by the table, if it accepts. State 0 accepts nothing, and a row's number 0 says that this argument isn't accepted.
fn next_state(states: &[u32], state: u32, argument: Argument) -> Option<u32>
    ensures { result ≡ accepted (next_state states.now state (argument_of argument)) }
{
    let row = state.checked_sub(1)? as usize;
    let next = states.get(row * Limits::STATE_WIDTH + argument.column())?;
    if *next == 0 { None } else { Some(*next) }
}

impl ArgMatcher {
    // A count of terms from 0. A maximum of 0 accepts nothing from the start.
    fn start_at_most(max: u32) -> Self
        ensures { matcher_of result ≡ start_at_most max }
    {
        if max == 0 {
            Self::None
        } else {
            Self::AtMostTerm { max, counter: 0 }
        }
    }

    // The matcher that a shape starts with.
    #[tactic(auto, unfolding(rules::specs::Matcher::start_match))]
    pub fn start_match(form: u32, value: u32) -> Self
        ensures { matcher_of result ≡ start_match form value }
    {
        match form {
            Form::FIXED | Form::RANGE => Self::start_at_most(value),
            Form::GREEDY | Form::INFIX_GREEDY => Self::Greedy,
            Form::GLOB => Self::Glob { state: value },
            _ => Self::None,
        }
    }

    // Whether it accepts everything.
    pub fn is_greedy(self) -> bool
        ensures { result ≡ is_greedy (matcher_of self) }
    {
        matches!(self, Self::Greedy)
    }

    // Whether what comes next is accepted, as a whole item or as a bare token, and what is accepted behind it.
    #[tactic(auto, unfolding(rules::specs::Matcher::match_next))]
    pub fn match_next(self, states: &[u32], argument: Argument) -> Matched
        ensures { matched_of result ≡ match_next states.now (matcher_of self) (argument_of argument) }
    {
        match self {
            Self::None => Matched::NotAccepted,
            Self::AtMostTerm { max, counter } => if counter < max {
                argument.as_term(Self::AtMostTerm {
                    max,
                    counter: counter + 1,
                })
            } else {
                Matched::NotAccepted
            },
            Self::Greedy => argument.as_term(Self::Greedy),
            Self::Glob { state } => {
                match next_state(states, state, argument) {
                    Some(next) => Matched::Whole(Self::Glob { state: next }),
                    None => Matched::NotAccepted,
                }
            }
        }
    }
}
