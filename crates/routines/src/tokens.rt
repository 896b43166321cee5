// Tokens become leaves: `eat`, `eat_as`, `eat_if`, `trivia`, `single_char`, and a node with one token in it.
ghost use Rattle.std.specs.Prelude.{◌≡◌, eqb};
ghost use Rattle.rules.specs.Flat.{flat};
ghost use Rattle.rules.specs.Cursor.{peek};
ghost use Rattle.rules.specs.Kinds.{is_trivia};
ghost use Rattle.rules.specs.Position.{asked};
ghost use Rattle.lexer.specs.Reading.{cursor_of};
ghost use Rattle.rules.specs.Routines as spec;
ghost use Rattle.state.specs.Contract.{AtWord, Grows, LeftOf, Somehow, Texts, There, Tokens, is_word};

use crate::question::{Question, Trivia};
use lexer::{Column, cell, char_len};
use state::Parser;
use syntax::{Refused, SyntaxKind, Token};

// What is left of the next token becomes a leaf of this kind.
#[inline(always)]
pub fn eat_as(tokens: &[u32], tree: &mut [u32], p: Parser, kind: u32) -> Result<Parser, Refused>
    requires { There tokens p × Somehow (Tokens tokens) p tree.old }
    ensures { Grows (Tokens tokens.entry) tree p result 1 (λ s n. spec.eat_as (flat n) s kind) }
{
    let start = p.lexer.rest_start(tokens);
    let size = p.lexer.rest_length(tokens);
    let leafed = p.leaf(tree, kind, start, size)?;
    Ok(leafed.with_lexer(leafed.lexer.eat()))
}

#[inline(always)]
pub fn eat(tokens: &[u32], tree: &mut [u32], p: Parser) -> Result<Parser, Refused>
    requires { There tokens p × Somehow (Tokens tokens) p tree.old }
    ensures { Grows (Tokens tokens.entry) tree p result 1 (λ s n. spec.eat (flat n) s) }
{
    let kind = SyntaxKind::from_token(cell(tokens, p.lexer.token, Column::KIND)).number();
    eat_as(tokens, tree, p, kind)
}

// Whether a token of this kind is next.
pub fn next_is(tokens: &[u32], p: Parser, kind: u32) -> bool
    ensures { result ≡ asked (eqb kind) (peek tokens.now (cursor_of p.lexer)) }
{
    p.lexer.peek(tokens) == Some(kind)
}

pub fn eat_if(tokens: &[u32], tree: &mut [u32], p: Parser, kind: u32) -> Result<Parser, Refused>
    requires { Somehow (Tokens tokens) p tree.old }
    ensures { Grows (Tokens tokens.entry) tree p result 0 (λ s n. spec.eat_if (flat n) s kind) }
{
    if next_is(tokens, p, kind) {
        return eat(tokens, tree, p);
    }
    Ok(p)
}

// Whether a next token is there whose kind has this answer.
pub fn asked<Q: Question>(tokens: &[u32], p: Parser) -> bool
    ensures { result ≡ asked Q.of (peek tokens.now (cursor_of p.lexer)) }
{
    p.lexer.peek(tokens).is_some_and(|kind| Q::holds(kind))
}

// Tokens become leaves as long as the answer is yes.
pub fn eat_while<Q: Question>(
    tokens: &[u32],
    tree: &mut [u32],
    p: Parser,
) -> Result<Parser, Refused>
    requires { Somehow (Tokens tokens) p tree.old }
    ensures { Grows (Tokens tokens.entry) tree p result 0 (λ s n q. spec.eat_while (flat n) s Q.of (spec.turns (flat n) s q) q) }
{
    let mut now = p;
    while asked::<Q>(tokens, now) {
        now = eat(tokens, tree, now)?;
    }
    Ok(now)
}

pub fn trivia(tokens: &[u32], tree: &mut [u32], p: Parser) -> Result<Parser, Refused>
    requires { Somehow (Tokens tokens) p tree.old }
    ensures { Grows (Tokens tokens.entry) tree p result 0 (λ s n. spec.trivia (flat n) s) }
{
    eat_while::<Trivia>(tokens, tree, p)
}

// The first character of a Word, or of what is left of one, becomes a leaf.
pub fn single_char(
    tokens: &[u32],
    tree: &mut [u32],
    p: Parser,
    word: &[u8],
) -> Result<Parser, Refused>
    requires { AtWord tokens p × Somehow (LeftOf tokens word p) p tree.old }
    ensures { Grows (LeftOf tokens.entry word.entry p) tree p result 1 (λ s n. spec.single_char (flat n) s) }
{
    let size = char_len(word);
    let start = p.lexer.rest_start(tokens);
    let leafed = p.leaf(tree, SyntaxKind::TokenWord as u32, start, size as u32)?;
    Ok(leafed.with_lexer(leafed.lexer.consume_utf8_bytes(tokens, size)))
}

// Whether a Word is next.
pub fn word_next(tokens: &[u32], p: Parser) -> bool
    ensures { result ≡ asked is_word (peek tokens.now (cursor_of p.lexer)) }
{
    next_is(tokens, p, Token::WORD)
}

// One character of a Word.
pub fn word_character(
    text: &[u8],
    tokens: &[u32],
    tree: &mut [u32],
    p: Parser,
) -> Result<Parser, Refused>
    requires { AtWord tokens p × Somehow (Texts text tokens) p tree.old }
    ensures { Grows (Texts text.entry tokens.entry) tree p result 1 (λ s n. spec.single_char (flat n) s) }
{
    single_char(tokens, tree, p, p.lexer.peek_text(text, tokens))
}

// A node of a kind with one token in it.
#[inline(always)]
pub fn one_in(tokens: &[u32], tree: &mut [u32], p: Parser, kind: u32) -> Result<Parser, Refused>
    requires { There tokens p × Somehow (Tokens tokens) p tree.old }
    ensures { Grows (Tokens tokens.entry) tree p result 1 (λ s n. spec.one_in (flat n) s kind) }
{
    let begun = p.start_node(tree, kind)?;
    let read = eat(tokens, tree, begun)?;
    read.finish_node(tree, kind, p.builder.frame())
}
