// What is printed of a sheet, into lent buffers.
ghost use Rattle.std.specs.Prelude.{◌≡◌, ◌≤◌, length};
ghost use Rattle.rules.specs.Run.{run};
ghost use Rattle.rules.specs.Sheet.{read, tables_of};
ghost use Rattle.rules.specs.Treelist.{most_numbers, printed_of};
ghost use Rattle.rules.specs.Listing.{listing};
ghost use Rattle.treelist.specs.Contract.{Small, Prints};
ghost use Rattle.rules.proofs.Listing.{InWords};
ghost use Rattle.listings.specs.Stands.{answer_of};
ghost use Rattle.sheets.proofs.Answers.{Told};

use cartglaze::run;
use listings::{Answer, Counts, list};
use sheets::{Sections, Unread, read};
use syntax::{Refusal, Refused};

// The same answer, taken apart and put together, to say that its numbers are machine numbers: so the lines have room.
fn in_words(answer: Answer) -> Answer
    ensures { (answer_of result ≡ answer_of answer) × InWords (answer_of result) }
{
    match answer {
        Ok(Counts { rows, dropped }) => Ok(Counts { rows, dropped }),
        Err(Refused { number, place }) => Err(Refused { number, place }),
    }
}

// The run on a sheet that was read: its text is a part of the sheet, and its tables are parts of the numbers.
fn run_sheet(
    sheet: &[u8],
    sections: Sections,
    table: &[u32],
    tree: &mut [u32],
    dropped: &mut [u32],
) -> Answer
    requires { Told sheet.now (tables_of sheet.now) sections table.now }
    ensures { run (tables_of sheet.entry.now) tree.old dropped.old
        ≡ record { answer = answer_of result; tree = tree.new; dropped = dropped.new } }
{
    let tables = sections.tables(sheet, table).unwrap();
    run(&tables, tree, dropped)
}

// The lines, which have room: how many bytes they have.
fn list_all(answer: Answer, tree: &[u32], dropped: &[u32], out: &mut [u8]) -> usize
    requires { Small tree.now dropped.now out.old }
    ensures { Prints (listing (answer_of answer) tree.now dropped.now) out.old result out.new }
{
    list(in_words(answer), tree, dropped, out).unwrap()
}

// The lines of a sheet: those of its run, or refusal 9.
pub fn print(
    sheet: &[u8],
    table: &mut [u32],
    tree: &mut [u32],
    dropped: &mut [u32],
    out: &mut [u8],
) -> usize
    requires { (most_numbers ≤ length table.old) × Small tree.old dropped.old out.old }
    ensures { Prints (printed_of tree.old dropped.old (read sheet.now))
        out.old result out.new }
{
    let answer = match read(sheet, table) {
        Ok(sections) => run_sheet(sheet, sections, table, tree, dropped),
        Err(Unread::Refused) => Err(Refusal::Sheet.at(0)),
        // The numbers of every sheet have room.
        Err(Unread::NoRoom(_)) => unreachable!(),
    };
    list_all(answer, tree, dropped, out)
}
