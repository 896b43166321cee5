// What the next argument of a command or a \begin is, and where greedy arguments stop.
ghost use Rattle.std.specs.Prelude.{◌≡◌};
ghost use Rattle.rules.specs.Items.{choose, greedy_stops, if_matched};
ghost use Rattle.rules.specs.Token.{Word as word_kind};
ghost use Rattle.arg_match.specs.Answers.{matched_of, matcher_of};
ghost use Rattle.syntax.specs.ParseScope.{scope_of};
ghost use Rattle.items.specs.Items.{choice_for, piece_for};

use arg_match::{ArgMatcher, Argument, Matched};
use syntax::{ParseScope, Token};

// How an argument is read.
#[derive(Clone, Copy)]
pub enum Piece {
    // A whole group.
    Within(ParseScope),
    // An opening brace alone.
    Brace,
    // Any other item.
    Item,
}

#[derive(Clone, Copy)]
pub enum Choice {
    // The arguments end here.
    Ends,
    // The token is held.
    Holds,
    // It is taken so, and the matcher goes on so.
    Takes(Piece, ArgMatcher),
}

#[tactic(auto, unfolding(rules::specs::Items::greedy_stops))]
pub fn greedy_stops(scope: ParseScope, kind: u32) -> bool
    ensures { result ≡ greedy_stops (scope_of scope) kind }
{
    kind == Token::AMPERSAND
        || kind == Token::NEW_LINE && scope == ParseScope::Environment
        || scope.stop_by_scope(kind)
}

// By the matcher's answer: the arguments end, the piece is taken whole, or its opening brace alone.
fn if_matched(piece: Piece, matched: Matched) -> Choice
    ensures { choice_for result ≡ if_matched (piece_for piece) (matched_of matched) }
{
    match matched {
        Matched::NotAccepted => Choice::Ends,
        Matched::Whole(next) => Choice::Takes(piece, next),
        Matched::Bare(next) => Choice::Takes(Piece::Brace, next),
    }
}

// What follows if a token of this kind is next. A Word does not come here: its characters are asked about one by one.
#[tactic(auto, unfolding(rules::specs::Items::choose, rules::specs::Kinds::is_trivia))]
pub fn choose(states: &[u32], scope: ParseScope, matcher: ArgMatcher, kind: u32) -> Choice
    requires { kind ≡ word_kind → ⊥ }
    ensures { choice_for result ≡ choose states.now (scope_of scope) (matcher_of matcher) kind }
{
    if Token::is_trivia(kind) {
        return Choice::Holds;
    }
    match kind {
        Token::AMPERSAND | Token::CARET | Token::UNDERSCORE => Choice::Ends,
        Token::LEFT_CURLY => if_matched(
            Piece::Within(ParseScope::CurlyItem),
            matcher.match_next(states, Argument::Term),
        ),
        Token::LEFT_BRACKET => if_matched(
            Piece::Within(ParseScope::BracketItem),
            matcher.match_next(states, Argument::Bracket),
        ),
        Token::LEFT_PAREN => if_matched(
            Piece::Within(ParseScope::ParenItem),
            matcher.match_next(states, Argument::Paren),
        ),
        _ => {
            if scope.stop_by_scope(kind) {
                return Choice::Ends;
            }
            if_matched(Piece::Item, matcher.match_next(states, Argument::Term))
        }
    }
}
