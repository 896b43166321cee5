// How many cases were replayed, and what came of them.
ghost use Rattle.std.specs.Prelude.{◌≡◌, ◌<◌};
ghost use Rattle.replay.specs.Tallied.{most_cases, is_lost, tallied, Tallies};

use crate::case::Replayed;

// Whether a case was accepted and its texts don't return.
fn is_lost(replayed: Replayed) -> bool
    ensures { result ≡ is_lost replayed }
{
    replayed.accepted && !replayed.returns
}

#[derive(Clone, Copy)]
pub struct Tally {
    pub cases: u64,
    // How many of them differ from what is recorded.
    pub differences: u64,
    // How many were accepted, and of how many of these the token texts don't return.
    pub accepted: u64,
    pub lost: u64,
}

impl Tally {
    // No list has more cases: the loop over a file has to end, and nothing says that the file does.
    pub const MOST: u64 = 1_000_000;

    pub const NONE: Tally = Tally {
        cases: 0,
        differences: 0,
        accepted: 0,
        lost: 0,
    };

    // One case more.
    pub fn with(self, replayed: Replayed) -> Self
        requires { Tallies self × (self.cases < most_cases) }
        ensures { result ≡ tallied self replayed }
    {
        Tally {
            cases: self.cases + 1,
            differences: self.differences + u64::from(!replayed.agrees),
            accepted: self.accepted + u64::from(replayed.accepted),
            lost: self.lost + u64::from(is_lost(replayed)),
        }
    }
}
