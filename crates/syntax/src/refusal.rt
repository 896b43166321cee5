// Why something is refused: the reasons of 01 and 02 by name, and a refusal as it is handed on, with its number and its place.
ghost use Rattle.std.specs.Prelude.{◌≡◌};
ghost use Rattle.syntax.specs.Numbers.{refusals};
ghost use Rattle.syntax.specs.Refusal.{number_of};

#[derive(Clone, Copy, PartialEq, Eq)]
pub enum Refusal {
    // A limit is passed, or a table isn't whole rows.
    Limit = 1,
    // The dropped buffer has under 3 numbers per token.
    DroppedRoom = 2,
    // A token row is not as it must be.
    Token = 3,
    // A shape row or a state row is not as it must be.
    Shape = 4,
    // The arguments of an environment are greedy.
    GreedyEnvironment = 5,
    // A wrap's mark lies before the first child of the innermost open node.
    MarkBeforeNode = 6,
    // A 129th node would be open.
    TooManyOpen = 7,
    // A row more than the tree buffer has.
    NoRoom = 8,
    // A sheet that can't be read.
    Sheet = 9,
    // A byte over 127 in a formula's text.
    NotAscii = 11,
}

// A refusal with its place. It has a number and no `Refusal`, since a listing is asked for of any number.
#[derive(Clone, Copy, PartialEq, Eq)]
pub struct Refused {
    pub number: u32,
    pub place: usize,
}

impl Refusal {
    pub fn number(self) -> u32
        ensures { result ≡ number_of self }
    {
        self as u32
    }

    // The refusal at a place.
    pub fn at(self, place: usize) -> Refused
        ensures { result ≡ record { number = number_of self; place = place } }
    {
        Refused {
            number: self.number(),
            place,
        }
    }

    // All numbers, in order. The contract holds each to the paper's.
    pub fn numbers() -> [u32; 10]
        ensures { result ≡ refusals }
    {
        [
            Self::Limit,
            Self::DroppedRoom,
            Self::Token,
            Self::Shape,
            Self::GreedyEnvironment,
            Self::MarkBeforeNode,
            Self::TooManyOpen,
            Self::NoRoom,
            Self::Sheet,
            Self::NotAscii,
        ]
        .map(|refusal| refusal.number())
    }
}
