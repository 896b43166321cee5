// Whether two tokens match as opener and closer of a formula.
ghost use Rattle.std.specs.Prelude.{◌≡◌};
ghost use Rattle.rules.specs.Questions.{leaf_at, between, matched};
ghost use Rattle.questions.specs.Stands.{delimiter_of};

use crate::delimiter::Delimiter;

// Whether the one token is this delimiter and the other that one.
#[tactic(auto, unfolding(rules::specs::Questions::between))]
fn between(
    text: &[u8],
    tree: &[u32],
    first: Option<usize>,
    last: Option<usize>,
    opener: Delimiter,
    closer: Delimiter,
) -> bool
    ensures { result ≡ between text.now (delimiter_of opener) (delimiter_of closer) (leaf_at tree.now first) (leaf_at tree.now last) }
{
    opener.is(text, tree, first) && closer.is(text, tree, last)
}

// Whether they are one of the four pairs.
#[tactic(auto, unfolding(rules::specs::Questions::matched))]
pub fn matched(text: &[u8], tree: &[u32], first: Option<usize>, last: Option<usize>) -> bool
    ensures { result ≡ matched text.now (leaf_at tree.now first) (leaf_at tree.now last) }
{
    let pair = |opener, closer| between(text, tree, first, last, opener, closer);
    pair(Delimiter::Dollar, Delimiter::Dollar)
        || pair(Delimiter::Dollars, Delimiter::Dollars)
        || pair(Delimiter::BeginInline, Delimiter::EndInline)
        || pair(Delimiter::BeginDisplay, Delimiter::EndDisplay)
}
