// Nothing is lost: what was dropped of a run is put back among its leaf texts, and these are compared with its token texts.
// Any rows, counts and lengths are taken.
#![tactic(auto)]

mod back;
mod texts;

pub use back::texts_return;
