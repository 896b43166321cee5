// The three questions of `FormulaItem` (syntax.rs) and the strict one, of a tree row.
ghost use Rattle.std.specs.Prelude.{◌≡◌};
ghost use Rattle.rules.specs.Questions.{first_token, leaf_at, one_of, is_display, is_inline, is_valid, is_whole};
ghost use Rattle.questions.specs.Stands.{delimiter_of};

use crate::delimiter::Delimiter;
use crate::matched::matched;
use crate::tokens::{first_token, formula, last_token};

// Whether the first token is one of two delimiters. In place by word: called, its last parameter lies on the stack, and rows that are no formula take
// half as much time again.
#[inline(always)]
#[tactic(auto, unfolding(rules::specs::Questions::one_of))]
fn opens(text: &[u8], tree: &[u32], row: usize, one: Delimiter, other: Delimiter) -> bool
    ensures { result ≡ one_of text.now (delimiter_of one) (delimiter_of other) (leaf_at tree.now (first_token tree.now row)) }
{
    let first = first_token(tree, row);
    one.is(text, tree, first) || other.is(text, tree, first)
}

// Checks whether it is a display formula.
pub fn is_display(text: &[u8], tree: &[u32], row: usize) -> bool
    ensures { result ≡ is_display text.now tree.now row }
{
    opens(text, tree, row, Delimiter::Dollars, Delimiter::BeginDisplay)
}

// Checks whether it is an inline formula.
pub fn is_inline(text: &[u8], tree: &[u32], row: usize) -> bool
    ensures { result ≡ is_inline text.now tree.now row }
{
    opens(text, tree, row, Delimiter::Dollar, Delimiter::BeginInline)
}

// Checks whether the formula is valid: its first and its last token match.
pub fn is_valid(text: &[u8], tree: &[u32], row: usize) -> bool
    ensures { result ≡ is_valid text.now tree.now row }
{
    matched(text, tree, first_token(tree, row), last_token(tree, row))
}

// Checks whether the formula is whole: its first and its last child are different leaves, and they match. A leaf is one row, so these are the row
// behind the formula's start and the row before its finish; of a row that is no leaf `matched` says no.
#[tactic(auto, using(crate::proofs::Formulas::found), unfolding(rules::specs::Questions::whole_in))]
pub fn is_whole(text: &[u8], tree: &[u32], row: usize) -> bool
    ensures { result ≡ is_whole text.now tree.now row }
{
    let Some(finish) = formula(tree, row) else {
        return false;
    };
    let first = row + 1;
    let last = finish - 1;
    first < last && matched(text, tree, Some(first), Some(last))
}
