// Refusal 3: the first token row that is not as it must be.
ghost use Rattle.std.specs.Prelude.{◌≡◌, ◌+◌, ◌≤◌, ◌<◌, length};
ghost use Rattle.rules.specs.Checks.{token_right, word_right};
ghost use Rattle.rules.specs.Tables.{length_at, start_at, token_count};
ghost use Rattle.syntax.specs.Tables.{given};
ghost use Rattle.checks.specs.Checked.{FirstBad, token_row};

use lexer::{Column, cell, is_utf8};
use syntax::{Limits, Tables, Token};

// Whether a Word's own bytes, a part of the caller's text that starts in its middle, are one or more and UTF-8.
#[tactic(auto, unfolding(rules::specs::Checks::word_right))]
fn word_right(tables: &Tables<'_>, token: usize) -> bool
    requires { let t = given tables in
        (token < token_count t.tokens) × (start_at t.tokens token + length_at t.tokens token ≤ length t.text) }
    ensures { result ≡ word_right (given tables.entry) token }
{
    let start = cell(tables.tokens, token, Column::START) as usize;
    let end = start + cell(tables.tokens, token, Column::LENGTH) as usize;
    start < end && is_utf8(&tables.text[start..end])
}

// Whether a token row has a kind of the forty, lies inside the text, has a shape of the table, and is right if it is a Word.
#[tactic(auto, unfolding(rules::specs::Checks::token_right))]
fn token_right(tables: &Tables<'_>, token: usize) -> bool
    requires { token < token_count (given tables).tokens }
    ensures { result ≡ token_right (given tables.entry) token }
{
    let kind = cell(tables.tokens, token, Column::KIND);
    let start = cell(tables.tokens, token, Column::START) as usize;
    let length = cell(tables.tokens, token, Column::LENGTH) as usize;
    let shape = cell(tables.tokens, token, Column::SHAPE) as usize;
    // The sum is taken in 64 bits: it may pass 32.
    (kind as usize) < Limits::KINDS
        && start + length <= tables.text.len()
        && shape <= tables.shapes.len() / Limits::SHAPE_WIDTH
        && (kind != Token::WORD || word_right(tables, token))
}

// Unused rows are looked at too.
pub fn first_bad_token(tables: &Tables<'_>) -> Option<usize>
    ensures { let t = given tables.entry in
        FirstBad (token_row t.text t.tokens t.shapes) (token_count t.tokens) result }
{
    let count = tables.tokens.len() / Limits::TOKEN_WIDTH;
    (0..count).find(
        |&token|
            requires { token < token_count (given tables).tokens }
        { !token_right(tables, token) },
    )
}
