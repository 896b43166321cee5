// Refusal 1: a limit is passed, or a table isn't whole rows.
ghost use Rattle.std.specs.Prelude.{◌≡◌, ◌<◌};
ghost use Rattle.rules.specs.Checks.{whole_rows, within_limits};
ghost use Rattle.syntax.specs.Tables.{given};

use syntax::{Limits, Tables};

// Whether a table is whole rows of so many numbers, at most so many of them.
fn whole_rows(table: &[u32], width: usize, most: usize) -> bool
    requires { 0 < width }
    ensures { result ≡ whole_rows width most table.now }
{
    table.len() % width == 0 && table.len() / width <= most
}

// Whether no limit is passed and every table is whole rows.
#[tactic(auto, unfolding(rules::specs::Checks::within_limits))]
pub fn within_limits(tables: &Tables<'_>) -> bool
    ensures { result ≡ within_limits (given tables.entry) }
{
    tables.text.len() <= Limits::TEXT
        && whole_rows(tables.tokens, Limits::TOKEN_WIDTH, Limits::TOKENS)
        && whole_rows(tables.shapes, Limits::SHAPE_WIDTH, Limits::SHAPES)
        && whole_rows(tables.states, Limits::STATE_WIDTH, Limits::STATES)
}
