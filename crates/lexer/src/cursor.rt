// The cursor over token rows: `peek`, `eat` and `consume_utf8_bytes` of the lexer's lib.rs, by value beside the lent text and rows.
ghost use Rattle.std.specs.Prelude.{◌≡◌, ◌<◌, ◌^◌};
ghost use Rattle.rules.specs.Cursor.{peek, peek_text, rest_start, rest_length, at_start, eaten, consumed};
ghost use Rattle.rules.specs.Limits.{token_width};
ghost use Rattle.rules.specs.Tables.{cell, token_count};
ghost use Rattle.lexer.specs.Reading.{cursor_of};
ghost use Rattle.lexer.specs.Fine.{Fine, Here};

use syntax::Limits;

// The first token not wholly read, and how many bytes of it are taken.
#[derive(Clone, Copy)]
pub struct Lexer {
    pub token: usize,
    pub taken: usize,
}

// The columns of a token row.
#[derive(Clone, Copy)]
pub struct Column;

impl Column {
    pub const KIND: usize = 0;

    pub const START: usize = 1;

    pub const LENGTH: usize = 2;

    pub const SHAPE: usize = 3;
}

// The number in a column of a token's row.
pub fn cell(tokens: &[u32], token: usize, column: usize) -> u32
    requires { (token < token_count tokens.now) × (column < token_width) }
    ensures { result ≡ cell token_width tokens.now token column }
{
    let at = token * Limits::TOKEN_WIDTH + column;
    tokens[at]
}

impl Lexer {
    // Before the first token.
    pub fn new() -> Self
        ensures { cursor_of result ≡ at_start }
    {
        Self { token: 0, taken: 0 }
    }

    // The next token's kind, if there is one.
    #[tactic(auto, unfolding(rules::specs::Cursor::peek))]
    pub fn peek(self, tokens: &[u32]) -> Option<u32>
        ensures { result ≡ peek tokens.now (cursor_of self) }
    {
        if self.token < tokens.len() / Limits::TOKEN_WIDTH {
            return Some(cell(tokens, self.token, Column::KIND));
        }
        None
    }

    // Where what is left of the next token starts in the text.
    #[tactic(auto, unfolding(rules::specs::Cursor::rest_start))]
    pub fn rest_start(self, tokens: &[u32]) -> u32
        requires { Here tokens.now (cursor_of self) }
        ensures { result ≡ rest_start tokens.now (cursor_of self) }
    {
        cell(tokens, self.token, Column::START) + self.taken as u32
    }

    // How many bytes are left of it.
    #[tactic(auto, unfolding(rules::specs::Cursor::rest_length))]
    pub fn rest_length(self, tokens: &[u32]) -> u32
        requires { Here tokens.now (cursor_of self) }
        ensures { result ≡ rest_length tokens.now (cursor_of self) }
    {
        cell(tokens, self.token, Column::LENGTH) - self.taken as u32
    }

    // The text of what is left of it, a part of the caller's text. Where bytes of a Word are taken, it starts in the Word's middle.
    #[tactic(auto, unfolding(rules::specs::Cursor::peek_text))]
    pub fn peek_text<'a>(self, text: &'a [u8], tokens: &[u32]) -> &'a [u8]
        requires { (self.token < token_count tokens.now) × Fine text.now tokens.now (cursor_of self) }
        ensures { result.now ≡ peek_text text.now tokens.now (cursor_of self) }
    {
        let start = self.rest_start(tokens) as usize;
        let end = start + self.rest_length(tokens) as usize;
        &text[start..end]
    }

    // So many bytes of the next token are passed, or all of it where it has no more.
    #[tactic(auto, unfolding(rules::specs::Cursor::consumed))]
    pub fn consume_utf8_bytes(self, tokens: &[u32], count: usize) -> Self
        requires { Here tokens.now (cursor_of self) }
        ensures { cursor_of result ≡ consumed tokens.now count (cursor_of self) }
    {
        if self.rest_length(tokens) as usize <= count {
            return self.eat();
        }
        Self {
            taken: self.taken + count,
            ..self
        }
    }

    // The next token is passed.
    pub fn eat(self) -> Self
        requires { self.token < 2 ^ 63 }
        ensures { cursor_of result ≡ eaten (cursor_of self) }
    {
        Self {
            token: self.token + 1,
            taken: 0,
        }
    }
}
