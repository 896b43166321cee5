// The delimiters of a formula, and whether a token is one of them.
ghost use Rattle.std.specs.Prelude.{◌≡◌};
ghost use Rattle.rules.specs.Questions.{leaf_at, is_delimiter};
ghost use Rattle.syntax.specs.SyntaxKind.{number_of};
ghost use Rattle.questions.specs.Stands.{delimiter_of};

use crate::leaf::{is_leaf, leaf_text};
use crate::rows::{Column, cell};
use syntax::SyntaxKind;

#[derive(Clone, Copy)]
pub enum Delimiter {
    // `$`
    Dollar,
    // `$$`
    Dollars,
    // `\(` and `\)`
    BeginInline,
    EndInline,
    // `\[` and `\]`
    BeginDisplay,
    EndDisplay,
}

impl Delimiter {
    // The kind of a token that is the delimiter.
    fn kind(self) -> SyntaxKind
        ensures { number_of result ≡ (delimiter_of self).kind }
    {
        match self {
            Self::Dollar | Self::Dollars => SyntaxKind::TokenDollar,
            Self::BeginInline | Self::BeginDisplay => SyntaxKind::TokenBeginMath,
            Self::EndInline | Self::EndDisplay => SyntaxKind::TokenEndMath,
        }
    }

    // Its text.
    fn bytes(self) -> &'static [u8]
        ensures { result.now ≡ (delimiter_of self).bytes }
    {
        match self {
            Self::Dollar => b"$",
            Self::Dollars => b"$$",
            Self::BeginInline => b"\\(",
            Self::EndInline => b"\\)",
            Self::BeginDisplay => b"\\[",
            Self::EndDisplay => b"\\]",
        }
    }

    // Whether a token is this delimiter.
    pub fn is(self, text: &[u8], tree: &[u32], token: Option<usize>) -> bool
        ensures { result ≡ is_delimiter text.now (delimiter_of self) (leaf_at tree.now token) }
    {
        is_delimiter(text, tree, token, self.kind().number(), self.bytes())
    }
}

// Whether a token lies inside the text, is of a kind and has these bytes.
#[tactic(auto, using(crate::proofs::Delimiters::delimiters), unfolding(rules::specs::Questions::is_delimiter))]
pub fn is_delimiter(
    text: &[u8],
    tree: &[u32],
    token: Option<usize>,
    kind: u32,
    bytes: &[u8],
) -> bool
    ensures { result ≡ is_delimiter text.now (record { kind = kind; bytes = bytes.now }) (leaf_at tree.now token) }
{
    let Some(row) = token else {
        return false;
    };
    is_leaf(text, tree, row)
        && cell(tree, row, Column::Kind as usize) == kind
        && leaf_text(text, tree, row) == bytes
}
