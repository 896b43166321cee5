// A sheet with the places of its sections: what is asked of them, and what they have.
ghost use Rattle.std.specs.Prelude.{◌≡◌};
ghost use Rattle.rules.specs.Sheet.{whole_numbers, readable};
ghost use Rattle.sheets.specs.Contract.{Placed, Counted};

use crate::big_endian::{Bytes, byte, number};
use crate::sections::{Places, Sections, places_of};

// Any bytes, as a sheet.
#[derive(Clone, Copy)]
pub struct Sheet<'a> {
    pub bytes: &'a [u8],
    pub places: Places,
    ghost placed: { Placed bytes.now places },
}

// Whether a section has whole numbers.
fn whole_numbers(sheet: &[u8], at: usize) -> bool
    ensures { result ≡ whole_numbers sheet.now at }
{
    number(sheet, at) % Bytes::NUMBER == 0
}

impl<'a> Sheet<'a> {
    pub fn of(bytes: &'a [u8]) -> Self
        ensures { result.bytes.now ≡ bytes.entry.now }
    {
        Sheet {
            bytes,
            places: places_of(bytes),
        }
    }

    // Whether it is not longer than a sheet may be, of the version, neither cut short nor followed by more, and its tables have whole numbers.
    #[tactic(auto, using(std::proofs::lemmas::Bool::Decides::nat_tests), unfolding(rules::specs::Sheet::readable))]
    pub fn readable(&self) -> bool
        ensures { result ≡ readable self.now.bytes.now }
    {
        self.bytes.len() <= Sections::MOST_BYTES
            && byte(self.bytes, 0) == Sections::VERSION
            && self.places.end == self.bytes.len()
            && whole_numbers(self.bytes, self.places.tokens)
            && whole_numbers(self.bytes, self.places.shapes)
            && whole_numbers(self.bytes, self.places.states)
    }

    // How much each section has.
    pub fn sections(&self) -> Sections
        ensures { Counted self.now.bytes.now result }
    {
        Sections {
            text: number(self.bytes, Sections::TEXT),
            tokens: number(self.bytes, self.places.tokens) / Bytes::NUMBER,
            shapes: number(self.bytes, self.places.shapes) / Bytes::NUMBER,
            states: number(self.bytes, self.places.states) / Bytes::NUMBER,
        }
    }
}
