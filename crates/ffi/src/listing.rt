// A listing for C and Rust: the answer comes in as `cartglaze_run` handed it out.
ghost use Rattle.std.specs.Prelude.{◌≡◌, min};
ghost use Rattle.rules.specs.Listing.{listing};
ghost use Rattle.listings.specs.Contract.{Lists};
ghost use Rattle.listings.specs.Stands.{answer_of};
ghost use Rattle.ffi.specs.Exported.{largest_number, answer_in, listed_from};

use cartglaze::{Answer, Counts, Refused, list};

fn narrow(number: usize) -> u32
    ensures { result ≡ min number largest_number }
{
    u32::try_from(number).unwrap_or(u32::MAX)
}

// The answer. No run has a number of refusal that is larger than 32 bits; one that comes in counts for the largest.
fn answer_in(accepted: bool, first: usize, second: usize) -> Answer
    ensures { answer_of result ≡ answer_in accepted first second }
{
    if accepted {
        Ok(Counts {
            rows: first,
            dropped: second,
        })
    } else {
        Err(Refused {
            number: narrow(first),
            place: second,
        })
    }
}

// Whether the lines of an answer have room, and how many bytes they have. If they have none, nothing is written.
#[unsafe(no_mangle)]
pub extern "C" fn cartglaze_list(
    accepted: bool,
    first: usize,
    second: usize,
    tree: &[u32],
    dropped: &[u32],
    out: &mut [u8],
    length: &mut usize,
) -> bool
    ensures { let lines = listing (answer_in accepted first second) tree.now dropped.now in
        Lists lines out.old (listed_from result length.new) out.new }
{
    match list(answer_in(accepted, first, second), tree, dropped, out) {
        Ok(count) => {
            *length = count;
            true
        }
        Err(no_room) => {
            *length = no_room.needed;
            false
        }
    }
}
