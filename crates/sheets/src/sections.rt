// The four sections of a sheet: how much each has, and where the length of each stands.
ghost use Rattle.std.specs.Prelude.{◌≡◌, ◌+◌, ◌<◌, ◌^◌, [], ◌∷◌};
ghost use Rattle.rules.specs.Sheet.{most_bytes, version, text_at, bytes_from, end_of};
ghost use Rattle.rules.specs.Treelist.{most_numbers};
ghost use Rattle.std.specs.Option.{option_map};
ghost use Rattle.sheets.specs.Contract.{Placed, tables_in};
ghost use Rattle.syntax.specs.Tables.{tables_of};

use crate::big_endian::{Bytes, number};
use syntax::Tables;

// How many bytes the text has, and how many numbers each table.
#[derive(Clone, Copy, Default, PartialEq, Eq)]
pub struct Sections {
    pub text: usize,
    pub tokens: usize,
    pub shapes: usize,
    pub states: usize,
}

impl Sections {
    // The largest sheet that is read, and the version byte of one.
    pub const MOST_BYTES: usize = 32_768;

    pub const VERSION: usize = 1;
    // Where the length of the text stands, and where its bytes begin.
    pub const TEXT: usize = 1;

    pub const TEXT_BYTES: usize = 5;
    // The numbers of every sheet that is read have room in so many.
    pub const MOST_NUMBERS: usize = 8_192;

    // The tables of a sheet of these sections, and of the numbers that were read of it: none where the sheet or the numbers have less.
    pub fn tables<'a>(self, sheet: &'a [u8], numbers: &'a [u32]) -> Option<Tables<'a>>
        ensures { option_map tables_of result ≡ tables_in self sheet.entry.now numbers.entry.now }
    {
        let (_, bytes) = sheet.split_at_checked(Self::TEXT_BYTES)?;
        let (text, _) = bytes.split_at_checked(self.text)?;
        let (tokens, behind_tokens) = numbers.split_at_checked(self.tokens)?;
        let (shapes, behind_shapes) = behind_tokens.split_at_checked(self.shapes)?;
        let (states, _) = behind_shapes.split_at_checked(self.states)?;
        Some(Tables {
            text,
            tokens,
            shapes,
            states,
        })
    }

    // All constants, in order. The contract holds each to the rules' number.
    pub fn numbers() -> [usize; 5]
        ensures { result ≡ (most_bytes ∷ version ∷ text_at ∷ bytes_from text_at ∷ most_numbers ∷ []) }
    {
        [
            Self::MOST_BYTES,
            Self::VERSION,
            Self::TEXT,
            Self::TEXT_BYTES,
            Self::MOST_NUMBERS,
        ]
    }
}

// Where the length of each table stands, and where the last section ends.
#[derive(Clone, Copy)]
pub struct Places {
    pub tokens: usize,
    pub shapes: usize,
    pub states: usize,
    pub end: usize,
}

// Where the section ends whose length stands at a place.
#[tactic(auto, unfolding(rules::specs::Sheet::end_of))]
fn end_of(sheet: &[u8], at: usize) -> usize
    requires { at < 2 ^ 40 }
    ensures { (result ≡ end_of sheet.now at) × (result < at + 2 ^ 33) }
{
    at + Bytes::NUMBER + number(sheet, at)
}

// The places. A section that claims more than the sheet has ends past the sheet's end.
pub fn places_of(sheet: &[u8]) -> Places
    ensures { Placed sheet.now result }
{
    let tokens = end_of(sheet, Sections::TEXT);
    let shapes = end_of(sheet, tokens);
    let states = end_of(sheet, shapes);
    Places {
        tokens,
        shapes,
        states,
        end: end_of(sheet, states),
    }
}
