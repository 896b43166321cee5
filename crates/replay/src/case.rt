// One recorded case (README.md of the data folder of `cases` has the format): the run on its tables, beside the real parser's answer.
ghost use Rattle.std.specs.Prelude.{◌^◌, ◌≤◌, ◌<◌, length};
ghost use Rattle.rules.specs.Run.{run as run_of};
ghost use Rattle.rules.specs.Sheet.{tables_of};
ghost use Rattle.rules.specs.Treelist.{most_numbers};
ghost use Rattle.syntax.specs.Tables.{given};
ghost use Rattle.sheets.proofs.Answers.{Told};
ghost use Rattle.listings.specs.Stands.{ran_of};
ghost use Rattle.replay.specs.Replays.{Judges, Replays, dropped_before};

use cartglaze::run;
use listings::Answer;
use put_back::texts_return;
use recorded::{BEFORE, is_recorded};
use sheets::{Sections, number, read};
use syntax::{Limits, Tables};

// What a replay says of a case.
#[derive(Clone, Copy)]
pub struct Replayed {
    // Whether the run gave the answer that is recorded.
    pub agrees: bool,
    // Whether the run accepted, and whether then the token texts return: two fields and no Option, since `Judges` and `only_replay` speak of each.
    pub accepted: bool,
    pub returns: bool,
}

impl Replayed {
    // A sheet has no more bytes, so that the texts of tokens that do not overlap have room.
    const TEXTS: usize = Sections::MOST_BYTES;

    // The largest tree buffer that a case may ask for.
    const MOST_ROOM: usize = 16_384;

    // A case that cannot be replayed.
    const NOT: Replayed = Replayed {
        agrees: false,
        accepted: false,
        returns: false,
    };
}

// An answer with its buffers beside the one that is recorded from `at` on; the texts of an accepted one are put back.
fn judged(
    case: &[u8],
    at: usize,
    tables: &Tables<'_>,
    tree: &[u32],
    dropped: &[u32],
    answer: Answer,
) -> Replayed
    requires { at < 2 ^ 36 }
    ensures { let t = given tables.entry in
        let ran = ran_of answer tree.now dropped.now in
        Judges case.now at t.text t.tokens ran result }
{
    let agrees = is_recorded(case, at, tree, dropped, answer);
    let Ok(counts) = answer else {
        return Replayed {
            agrees,
            accepted: false,
            returns: false,
        };
    };
    let mut back = [0u8; Replayed::TEXTS];
    let mut whole = [0u8; Replayed::TEXTS];
    Replayed {
        agrees,
        accepted: true,
        returns: texts_return(
            tables.text,
            tables.tokens,
            tree,
            dropped,
            counts,
            &mut back,
            &mut whole,
        ),
    }
}

// The run on these tables, with a dropped buffer of a row for each token.
fn run_tables(case: &[u8], at: usize, tables: &Tables<'_>, tree: &mut [u32]) -> Replayed
    requires { (at < 2 ^ 36) × (length (given tables).tokens ≤ most_numbers) }
    ensures { let t = given tables.entry in
        Judges case.now at t.text t.tokens (run_of t tree.old (dropped_before t.tokens)) result }
{
    let mut dropped = [BEFORE; Sections::MOST_NUMBERS];
    let room = tables.tokens.len() / Limits::TOKEN_WIDTH * Limits::DROPPED_WIDTH;
    let lent = &mut dropped[..room];
    let answer = run(tables, tree, lent);
    judged(case, at, tables, tree, lent, answer)
}

// The run on a sheet that was read: its text is a part of the sheet, and its tables are parts of the numbers.
fn run_sheet(
    case: &[u8],
    at: usize,
    sheet: &[u8],
    sections: Sections,
    table: &[u32],
    tree: &mut [u32],
) -> Replayed
    requires { (at < 2 ^ 36) × (length table.now ≤ most_numbers) × Told sheet.now (tables_of sheet.now) sections table.now }
    ensures { let t = tables_of sheet.entry.now in
        Judges case.now at t.text t.tokens (run_of t tree.old (dropped_before t.tokens)) result }
{
    let tables = sections.tables(sheet, table).unwrap();
    run_tables(case, at, &tables, tree)
}

// A recorded case: its sheet, and behind it the room that the tree had and the answer.
pub fn replay(case: &[u8]) -> Replayed
    ensures { Replays case.now result }
{
    let end = 4 + number(case, 0);
    if case.len() < end {
        return Replayed::NOT;
    }
    let sheet = &case[4..end];
    let room = number(case, end);
    if Replayed::MOST_ROOM < room {
        return Replayed::NOT;
    }
    let mut table = [0u32; Sections::MOST_NUMBERS];
    let mut tree = [BEFORE; Replayed::MOST_ROOM];
    // The numbers of every sheet have room, so that one that is not read is refused.
    let Ok(sections) = read(sheet, &mut table) else {
        return Replayed::NOT;
    };
    let lent = &mut tree[..room];
    run_sheet(case, end + 4, sheet, sections, &table, lent)
}
