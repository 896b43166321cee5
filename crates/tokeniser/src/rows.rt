// The whole text: what is refused, how many tokens there are, and their rows.
ghost use Rattle.std.specs.Prelude.{cond, ◌≡◌, [], ◌∷◌, ◌+◌, ◌*◌, ◌≤◌, ◌<◌, ◌^◌, length, nat_lt, nat_le, position};
ghost use Rattle.rules.specs.Limits.{text as mostText, token_width};
ghost use Rattle.rules.specs.Run.{over};
ghost use Rattle.rules.specs.Tokeniser.{fits, tokens_of, token_rows, tokenise};
ghost use Rattle.builder.specs.Contract.{written};
ghost use Rattle.tokeniser.specs.Bytes.{Ascii};
ghost use Rattle.tokeniser.specs.Answers.{tokenised_of};

use crate::lexeme::{Lexeme, lexeme_at};
use syntax::{Limits, Refusal, Refused};

// Where the first byte over 127 stands, if there is one. Whether there is one is asked first, since that looks at many bytes at a time.
#[tactic(auto, using(crate::proofs::High::none_over))]
fn first_high(text: &[u8]) -> Option<usize>
    ensures { result ≡ position (λ byte. nat_lt 127 byte) text.now }
{
    if text.is_ascii() {
        return None;
    }
    text.iter().position(|byte| 127 < *byte)
}

// A token's row is written over what stands there, if there is room for it.
fn put(rows: &mut [u32], row: usize, token: Lexeme)
    requires { (row ≤ mostText) × (token.start < 2 ^ 32) × (token.length < 2 ^ 32) }
    ensures { let numbers = token.kind ∷ token.start ∷ token.length ∷ 0 ∷ [] in
        let fit = nat_le (row * token_width + token_width) (length rows.old) in
        rows.new ≡ cond fit (written token_width row numbers rows.old) rows.old }
{
    if rows.len() / Limits::TOKEN_WIDTH <= row {
        return;
    }
    let at = row * Limits::TOKEN_WIDTH;
    // Four stores: a row that is copied from an array goes through the stack, and the text of `binder` took 1.25 times as long.
    rows[at] = token.kind;
    rows[at + 1] = token.start as u32;
    rows[at + 2] = token.length as u32;
    rows[at + 3] = 0;
}

// The text is cut into tokens: how many they are, and their rows in a buffer that has room for all. To count them only, one of no numbers is lent.
fn cut(text: &[u8], rows: &mut [u32]) -> usize
    requires { Ascii text.now × (length text.now ≤ mostText) }
    ensures { (result ≡ length (tokens_of text.now))
        × (length (tokens_of text.now) * token_width ≤ length rows.old → rows.new ≡ over (token_rows text.now) rows.old) }
{
    // No range counts this: a step is as long as its token.
    let mut at = 0;
    let mut row = 0;
    while at < text.len() {
        let token = lexeme_at(text, at);
        put(rows, row, token);
        at = token.end;
        row += 1;
    }
    row
}

// Whether the text, its tokens and their rows keep to the limits and to a buffer of so many numbers. There are no more tokens than bytes, so that
// they need not be counted where there is room for as many as bytes.
#[tactic(auto, using(crate::proofs::Judged::tokens))]
fn fits(text: &[u8], numbers: usize) -> bool
    requires { Ascii text.now }
    ensures { result ≡ fits text.now numbers }
{
    if Limits::TEXT < text.len() {
        return false;
    }
    let room = numbers / Limits::TOKEN_WIDTH;
    if text.len() <= Limits::TOKENS && text.len() <= room {
        return true;
    }
    let tokens = cut(text, &mut []);
    tokens <= Limits::TOKENS && tokens <= room
}

// The token rows of a text. Nothing is asked of its bytes, nor of the buffer's length.
pub fn tokenise(text: &[u8], rows: &mut [u32]) -> Result<usize, Refused>
    ensures { (tokenised_of result, rows.new) ≡ tokenise text.now rows.old }
{
    if let Some(place) = first_high(text) {
        return Err(Refusal::NotAscii.at(place));
    }
    if fits(text, rows.len()) {
        return Ok(cut(text, rows));
    }
    Err(Refusal::Limit.at(0))
}
