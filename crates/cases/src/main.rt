// Replays the recorded list, `cases.bin` of its data folder, and prints how many cases there are and how many of them differ; then of how many
// accepted ones the texts were put back, and of how many they are not the token texts.
#![tactic(auto)]

ghost use Rattle.std.specs.Prelude.{IfOk};
ghost use Rattle.std.specs.Io.{ReadsAtMost};
ghost use Rattle.replay.specs.Tallied.{Tallies};

use replay::{Replayed, Tally, replay};
use sheets::{number, read_full};
use std::io::Read;
use std::{fs, io};

// Each case of the list has at most so many bytes.
const LARGEST_CASE: usize = 65_536;

// The next case into the buffer: how many bytes it has, 0 at the end, as `read` answers.
fn read_case(input: &mut impl Read, case: &mut [u8]) -> io::Result<usize>
    ensures { ReadsAtMost result case.new }
{
    let mut length = [0u8; 4];
    if read_full(input, &mut length)? < 4 {
        return Ok(0);
    }
    let size = number(&length, 0);
    if case.len() < size {
        return Ok(0);
    }
    read_full(input, &mut case[..size])
}

// The next case's replay, none at the end.
fn replay_next(input: &mut impl Read) -> io::Result<Option<Replayed>> {
    let mut case = [0u8; LARGEST_CASE];
    let size = read_case(input, &mut case)?;
    if size == 0 {
        return Ok(None);
    }
    Ok(Some(replay(&case[..size])))
}

// What came of the cases, of `Tally::MOST` at most.
fn replay_all(input: &mut impl Read) -> io::Result<Tally>
    ensures { IfOk result Tallies }
{
    let mut tally = Tally::NONE;
    for _ in 0..Tally::MOST {
        let Some(replayed) = replay_next(input)? else {
            break;
        };
        tally = tally.with(replayed);
    }
    Ok(tally)
}

fn main(rt: HostRuntime) -> io::Result<()> {
    let mut list = fs::open(&rt, "cases.bin")?;
    let tally = replay_all(&mut list)?;
    let (cases, differences) = (tally.cases, tally.differences);
    println!(rt; "{cases} cases, {differences} differences")?;
    let (accepted, lost) = (tally.accepted, tally.lost);
    println!(rt; "{accepted} accepted cases put back, {lost} differences")
}
