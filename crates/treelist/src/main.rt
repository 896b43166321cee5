// Reads one sheet from standard input and writes what is printed of it to standard output. All that matters is in printed.rt and the crates below.
#![tactic(auto)]

mod printed;
mod sizes;

use printed::print;
use sheets::read_full;
use sizes::Sizes;
use std::io;
use std::io::Write;

fn main(rt: HostRuntime) -> io::Result<()> {
    let mut sheet = [0u8; Sizes::SHEET];
    let mut input = rt.stdin();
    let size = read_full(&mut input, &mut sheet)?;
    let mut table = [0u32; Sizes::TABLE];
    let mut tree = [0u32; Sizes::TREE];
    let mut dropped = [0u32; Sizes::DROPPED];
    let mut out = [0u8; Sizes::OUT];
    let count = print(
        &sheet[..size],
        &mut table,
        &mut tree,
        &mut dropped,
        &mut out,
    );
    rt.stdout().write_all(&out[..count])
}
