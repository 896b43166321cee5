// The answer of a run.

use syntax::Refused;

// How many tree rows and dropped rows an accepted run wrote.
#[derive(Clone, Copy, PartialEq, Eq)]
pub struct Counts {
    pub rows: usize,
    pub dropped: usize,
}

// Accepted with its counts, or refused with a number and a place.
pub type Answer = Result<Counts, Refused>;
