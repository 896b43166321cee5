// The checks in 01's order: 1 to 4, each with its place.
ghost use Rattle.std.specs.Prelude.{◌≡◌};
ghost use Rattle.rules.specs.Checks.{checks};
ghost use Rattle.syntax.specs.Tables.{given};
ghost use Rattle.checks.specs.Checked.{checked_of};

use crate::limits::within_limits;
use crate::shapes::first_bad_shape_or_state;
use crate::tokens::first_bad_token;
use syntax::{Limits, Refusal, Refused, Tables};

// The tables are judged beside a dropped buffer of so many numbers. Nothing is asked of them.
#[tactic(auto, unfolding(rules::specs::Checks::checks))]
pub fn check(tables: &Tables<'_>, dropped: usize) -> Result<(), Refused>
    ensures { checks (given tables.entry) dropped ≡ checked_of result }
{
    if !within_limits(tables) {
        return Err(Refusal::Limit.at(0));
    }
    if dropped < tables.tokens.len() / Limits::TOKEN_WIDTH * Limits::DROPPED_WIDTH {
        return Err(Refusal::DroppedRoom.at(0));
    }
    if let Some(row) = first_bad_token(tables) {
        return Err(Refusal::Token.at(row));
    }
    if let Some(row) = first_bad_shape_or_state(tables) {
        return Err(Refusal::Shape.at(row));
    }
    Ok(())
}
