// Texts into a lent buffer, one behind the other. Each function is handed how many bytes there are and answers how many there are then. Past the
// buffer's end they are counted and not written; the count stays at the largest number once it is there.
ghost use Rattle.std.specs.Prelude.{◌≡◌, get_or};
ghost use Rattle.rules.specs.Tables.{part};
ghost use Rattle.rules.specs.PutBack.{token_text, token_texts, with_texts, dropped_after};
ghost use Rattle.listings.specs.Contract.{Wrote};

use listings::put;
use syntax::Limits;

// A number of a table, 0 past its end. The token rows are no arrays here: of a last row that is cut off what is there counts.
fn cell(table: &[u32], at: usize) -> u32
    ensures { result ≡ get_or table.now at 0 }
{
    table.get(at).copied().unwrap_or(0)
}

// A part of the text, as far as the text goes.
pub fn part(out: &mut [u8], at: usize, text: &[u8], start: u32, size: u32) -> usize
    ensures { Wrote (part text.now start size) out.old at out.new result }
{
    let end = text.len().min(start as usize + size as usize);
    let bytes = &text[end.min(start as usize)..end];
    let mut next = at;
    for &byte in bytes {
        next = put(out, next, byte);
    }
    next
}

// The text of a token.
pub fn token(out: &mut [u8], at: usize, text: &[u8], tokens: &[u32], index: u32) -> usize
    ensures { Wrote (token_text text.now tokens.now index) out.old at out.new result }
{
    let from = index as usize * Limits::TOKEN_WIDTH;
    part(
        out,
        at,
        text,
        cell(tokens, from + 1),
        cell(tokens, from + 2),
    )
}

// The texts of all tokens, joined in order.
pub fn joined(out: &mut [u8], text: &[u8], tokens: &[u32]) -> usize
    ensures { Wrote (token_texts text.now tokens.now) out.old 0 out.new result }
{
    let (rows, _) = tokens.as_chunks::<{ Limits::TOKEN_WIDTH }>();
    let mut next = 0;
    for row in rows {
        let [_, start, size, _] = *row;
        next = part(out, next, text, start, size);
    }
    next
}

// The texts of the dropped tokens before which so many leaves were written.
pub fn dropped_after(
    out: &mut [u8],
    at: usize,
    text: &[u8],
    tokens: &[u32],
    dropped: &[[u32; Limits::DROPPED_WIDTH]],
    leaves: usize,
) -> usize
    ensures { let dropped = with_texts text.now tokens.now dropped.entry.now in
        Wrote (dropped_after leaves dropped) out.old at out.new result }
{
    let mut next = at;
    for row in dropped {
        let [index, _, before] = *row;
        if before as usize == leaves {
            next = token(out, next, text, tokens, index);
        }
    }
    next
}
