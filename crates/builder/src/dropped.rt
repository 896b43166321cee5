// Dropped rows into a lent buffer: the token, why it was dropped, and how many leaves were written before it.
ghost use Rattle.std.specs.Prelude.{◌≡◌, ◌+◌, ◌*◌, ◌≤◌, length};
ghost use Rattle.rules.specs.Limits.{dropped_width};
ghost use Rattle.rules.specs.Flat.{dropped_row};
ghost use Rattle.builder.specs.Contract.{written};

use syntax::Limits;

// One more dropped row behind the first `count`.
pub fn drop_token(dropped: &mut [u32], count: usize, token: u32, reason: u32, leaves: u32)
    requires { count * dropped_width + dropped_width ≤ length dropped.old }
    ensures { dropped.new ≡ written dropped_width count (dropped_row token reason leaves) dropped.old }
{
    let at = count * Limits::DROPPED_WIDTH;
    dropped[at] = token;
    dropped[at + 1] = reason;
    dropped[at + 2] = leaves;
}
