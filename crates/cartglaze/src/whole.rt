// The whole run: the tables are checked, the tokens are read, and a refusal while reading leaves nothing in the lent buffers.
ghost use Rattle.std.specs.Prelude.{◌≡◌, length, replicate};
ghost use Rattle.rules.specs.Run.{run as run_of};
ghost use Rattle.syntax.specs.Tables.{given};
ghost use Rattle.listings.specs.Stands.{ran_of};

use checks::check;
use listings::{Answer, Counts};
use parser::parse;
use syntax::Tables;

// A lent buffer set to zeros throughout.
fn clear(buffer: &mut [u32])
    ensures { buffer.new ≡ replicate (length buffer.old) 0 }
{
    buffer.fill(0);
}

// The tables in; the tree's rows and the dropped rows into the lent buffers.
// Refusals 1 to 4 write nothing, 5 to 8 leave zeros; behind the rows of an accepted run all is as it was.
pub fn run(tables: &Tables<'_>, tree: &mut [u32], dropped: &mut [u32]) -> Answer
    ensures { run_of (given tables.entry) tree.old dropped.old ≡ ran_of result tree.new dropped.new }
{
    check(tables, dropped.len())?;
    match parse(tables, tree, dropped) {
        Ok(end) => Ok(Counts {
            rows: end.builder.rows,
            dropped: end.dropped,
        }),
        Err(refused) => {
            clear(tree);
            clear(dropped);
            Err(refused)
        }
    }
}
