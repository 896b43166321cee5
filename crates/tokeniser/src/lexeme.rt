// The token at a place: the longest match of token.rs's patterns, and of a command its name.
ghost use Rattle.std.specs.Prelude.{◌≡◌, ◌-◌, ◌≤◌, ◌<◌, if◌then◌else◌, length, get_or, drop};
ghost use Rattle.rules.specs.Commands.{takes_name, with_name};
ghost use Rattle.rules.specs.Tokeniser.{plain, command, lexeme};
ghost use Rattle.rules.proofs.Lexemes.{kind_alone};
ghost use Rattle.tokeniser.specs.Bytes.{Ascii, Mark};
ghost use Rattle.tokeniser.specs.Lexemes.{Stands};

use crate::class::{Class, run_end};
use crate::command::kind_of;
use crate::name::{in_braces, name_end, stands};
use syntax::Token;

// Its kind, where its text starts and how long it is, and where its source range ends.
#[derive(Clone, Copy)]
pub struct Lexeme {
    pub kind: u32,
    pub start: usize,
    pub length: usize,
    pub end: usize,
}

// A token whose text is its source range.
fn plain(kind: u32, at: usize, end: usize) -> Lexeme
    requires { at ≤ end }
    ensures { Stands at (plain kind (end - at)) result }
{
    Lexeme {
        kind,
        start: at,
        length: end - at,
        end,
    }
}

// The kind of \begin or \end with its name, if it is one of them.
fn with_name(kind: u32) -> Option<u32>
    ensures { result ≡ if takes_name kind then Some (with_name kind) else None }
{
    match kind {
        Token::ERROR_BEGIN_ENVIRONMENT => Some(Token::BEGIN_ENVIRONMENT),
        Token::ERROR_END_ENVIRONMENT => Some(Token::END_ENVIRONMENT),
        _ => None,
    }
}

// A backslash and its name; \begin and \end take a name in braces with them.
#[tactic(auto, using(crate::proofs::Stops::commands))]
fn command(text: &[u8], at: usize) -> Lexeme
    requires { (at < length text.now) × Ascii text.now }
    ensures { Stands at (command (drop at text.now)) result }
{
    let from = at + 1;
    let end = name_end(text, from);
    let kind = kind_of(&text[from..end]);
    if let Some(environment) = with_name(kind)
        && let Some(length) = in_braces(text, end)
    {
        let start = end + 1;
        return Lexeme {
            kind: environment,
            start,
            length,
            end: start + length + 1,
        };
    }
    plain(kind, at, end)
}

// The kind of a byte that is a token alone; a Word's of any other.
fn kind_alone(byte: u8) -> u32
    ensures { result ≡ kind_alone byte }
{
    match byte {
        b'{' => Token::LEFT_CURLY,
        b'}' => Token::RIGHT_CURLY,
        b',' => Token::COMMA,
        b'[' => Token::LEFT_BRACKET,
        b']' => Token::RIGHT_BRACKET,
        b'(' => Token::LEFT_PAREN,
        b')' => Token::RIGHT_PAREN,
        b'~' => Token::TILDE,
        b'/' => Token::SLASH,
        b'_' => Token::UNDERSCORE,
        b'*' => Token::ASTERISK,
        b'@' => Token::AT_SIGN,
        b'\'' => Token::APOSTROPHE,
        b'"' => Token::DITTO,
        b';' => Token::SEMICOLON,
        b'&' => Token::AMPERSAND,
        b'^' => Token::CARET,
        b'#' => Token::HASH,
        _ => Token::WORD,
    }
}

// A token that is no run of Word bytes, blanks or breaks, by its first byte.
fn mark(text: &[u8], at: usize) -> Lexeme
    requires { (at < length text.now) × Ascii text.now × Mark (get_or text.now at 0) }
    ensures { Stands at (lexeme (drop at text.now)) result }
{
    let byte = text[at];
    let next = at + 1;
    match byte {
        b'\\' => {
            if stands(text, next, b'\\') {
                return plain(Token::NEW_LINE, at, next + 1);
            }
            command(text, at)
        }
        b'%' => plain(Token::LINE_COMMENT, at, run_end(text, next, Class::NoBreak)),
        b'$' => {
            if stands(text, next, b'$') {
                return plain(Token::DOLLAR, at, next + 1);
            }
            plain(Token::DOLLAR, at, next)
        }
        _ => plain(kind_alone(byte), at, next),
    }
}

// The token at a place. Most are Words and blanks, so these are asked first.
pub fn lexeme_at(text: &[u8], at: usize) -> Lexeme
    requires { (at < length text.now) × Ascii text.now }
    ensures { Stands at (lexeme (drop at text.now)) result }
{
    let byte = text[at];
    let next = at + 1;
    if Class::Word.has(byte) {
        return plain(Token::WORD, at, run_end(text, next, Class::Word));
    }
    if Class::Blank.has(byte) {
        return plain(Token::WHITESPACE, at, run_end(text, next, Class::Blank));
    }
    if Class::Break.has(byte) {
        return plain(Token::LINE_BREAK, at, run_end(text, next, Class::Break));
    }
    mark(text, at)
}
