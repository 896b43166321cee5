// Bodies that are skipped: `block_comment` and `typst_code`, with `eat_body_of_ifs`.
#![tactic(auto)]

ghost use Rattle.std.specs.Prelude.{◌≡◌, true, ◌<◌, ◌^◌};
ghost use Rattle.rules.specs.Flat.{flat};
ghost use Rattle.rules.specs.Cursor.{peek};
ghost use Rattle.rules.specs.Position.{asked};
ghost use Rattle.lexer.specs.Reading.{cursor_of};
ghost use Rattle.syntax.specs.Rows.{reason_number};
ghost use Rattle.rules.specs.Routines as spec;
ghost use Rattle.state.specs.Contract.{Goes, Known, There, Tokens, lent};
ghost use Rattle.skipped.specs.Body.{Dropped, RowFree, in_body, nested_behind};

use builder::drop_token;
use items::is_if;
use lexer::{Column, cell};
use routines::eat;
use state::Parser;
use syntax::{Reason, Refused, Token};

// The next token is dropped.
fn drop_next(dropped: &mut [u32], p: Parser, reason: Reason) -> Parser
    requires { RowFree p dropped.old }
    ensures { Dropped (reason_number reason) p dropped.old result dropped.new }
{
    drop_token(
        dropped,
        p.dropped,
        p.lexer.token as u32,
        reason.number(),
        p.builder.leaves as u32,
    );
    let mut next = p.with_lexer(p.lexer.eat());
    next.dropped = p.dropped + 1;
    next
}

// Whether a next token is there that is of the body: not the \fi of nesting 0.
fn more_body(tokens: &[u32], p: Parser, nested: usize) -> bool
    ensures { result ≡ asked (in_body nested) (peek tokens.now (cursor_of p.lexer)) }
{
    p.lexer
        .peek(tokens)
        .is_some_and(|kind| kind != Token::END_IF || nested != 0)
}

// The nesting behind a token of the body: any \if nests.
fn nested_behind(kind: u32, nested: usize) -> usize
    requires { (nested < 2 ^ 63) × (in_body nested kind ≡ true) }
    ensures { result ≡ nested_behind nested kind }
{
    if kind == Token::END_IF {
        return nested - 1;
    }
    if is_if(kind) {
        return nested + 1;
    }
    nested
}

// Up to the \fi of nesting 0, which is dropped.
fn eat_body_of_ifs(
    tokens: &[u32],
    tree: &mut [u32],
    dropped: &mut [u32],
    p: Parser,
) -> Result<Parser, Refused>
    requires { Known (Tokens tokens) p (lent tree dropped) }
    ensures { Goes (Tokens tokens.entry) tree dropped p result 0 (λ s n q. spec.eat_body_of_ifs (flat n) s (spec.turns (flat n) s q) 0 q) }
{
    let mut now = p;
    let mut nested: usize = 0;
    while more_body(tokens, now, nested) {
        nested = nested_behind(cell(tokens, now.lexer.token, Column::KIND), nested);
        now = eat(tokens, tree, now)?;
    }
    let Some(_) = now.lexer.peek(tokens) else {
        return Ok(now);
    };
    Ok(drop_next(dropped, now, Reason::Closer))
}

// \iffalse or its like, its body and its \fi, in a node of this kind.
pub fn skipped_body(
    tokens: &[u32],
    tree: &mut [u32],
    dropped: &mut [u32],
    p: Parser,
    kind: u32,
) -> Result<Parser, Refused>
    requires { There tokens p × Known (Tokens tokens) p (lent tree dropped) }
    ensures { Goes (Tokens tokens.entry) tree dropped p result 1 (λ s n. spec.skipped_body (flat n) s kind) }
{
    let begun = p.start_node(tree, kind)?;
    let inside = drop_next(dropped, begun, Reason::Opener);
    let read = eat_body_of_ifs(tokens, tree, dropped, inside)?;
    read.finish_node(tree, kind, p.builder.frame())
}
