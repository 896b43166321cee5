// What a tree row and a dropped row say by their numbers.
ghost use Rattle.std.specs.Prelude.{◌≡◌, ◌<◌, ◌^◌};
ghost use Rattle.rules.specs.Questions.{open_after};
ghost use Rattle.syntax.specs.Numbers.{tags, reasons};
ghost use Rattle.syntax.specs.Rows.{tag_number, reason_number};

#[derive(Clone, Copy, PartialEq, Eq)]
pub enum Tag {
    Start = 0,
    Leaf = 1,
    Finish = 2,
}

impl Tag {
    // The number that a row keeps.
    pub fn number(self) -> u32
        ensures { result ≡ tag_number self }
    {
        self as u32
    }

    // How many nodes are open once a row whose tag has this number is passed: a finish where none is open leaves none.
    #[tactic(auto, unfolding(rules::specs::Questions::open_after))]
    pub fn open_after(number: u32, deep: usize) -> usize
        requires { deep < 2 ^ 63 }
        ensures { result ≡ open_after number deep }
    {
        if number == Self::Start.number() {
            deep + 1
        } else if number == Self::Finish.number() {
            deep.saturating_sub(1)
        } else {
            deep
        }
    }

    // All of them, in order. The contract holds each to 01's number.
    pub fn numbers() -> [u32; 3]
        ensures { result ≡ tags }
    {
        [Self::Start, Self::Leaf, Self::Finish].map(|tag| tag.number())
    }
}

// Why a token was dropped.
#[derive(Clone, Copy, PartialEq, Eq)]
pub enum Reason {
    Trivia = 1,
    Opener = 2,
    Closer = 3,
}

impl Reason {
    // The number that a dropped row keeps.
    pub fn number(self) -> u32
        ensures { result ≡ reason_number self }
    {
        self as u32
    }

    // All of them, in order. The contract holds each to 01's number.
    pub fn numbers() -> [u32; 3]
        ensures { result ≡ reasons }
    {
        [Self::Trivia, Self::Opener, Self::Closer].map(|reason| reason.number())
    }
}
