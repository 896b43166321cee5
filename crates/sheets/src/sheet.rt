// A sheet is read: its text stays where it is, and its numbers go into a lent buffer.
ghost use Rattle.std.specs.Prelude.{◌≡◌, ◌+◌, ◌/◌, ◌^◌, ◌≤◌, ◌<◌, length};
ghost use Rattle.rules.specs.Run.{over};
ghost use Rattle.rules.specs.Sheet.{number_at, number_bytes, read, tables_of};
ghost use Rattle.sheets.specs.Contract.{Room, with_table, numbers_of, Reads};

use crate::big_endian::{Bytes, numbers};
use crate::placed::Sheet;
use crate::sections::Sections;

// Why a sheet is not read.
#[derive(Clone, Copy, PartialEq, Eq)]
pub enum Unread {
    // Refusal 9.
    Refused,
    // The sheet could be read, into a buffer of so many numbers.
    NoRoom(usize),
}

// The numbers of the table whose length stands at a place, into so many of the buffer from another on.
fn fill_table(sheet: &[u8], at: usize, table: &mut [u32], from: usize, count: usize)
    requires { (at < 2 ^ 40) × (count ≡ number_at sheet.now at / number_bytes) × (from + count ≤ length table.old) }
    ensures { table.new ≡ with_table sheet.now at from count table.old }
{
    let end = from + count;
    numbers(sheet, at + Bytes::NUMBER, &mut table[from..end]);
}

// The numbers of the three tables, one table behind the other, into a buffer that has room for them.
fn fill(sheet: &Sheet<'_>, sections: Sections, table: &mut [u32])
    requires { Room sheet.now.bytes.now sections table.old }
    ensures { table.new ≡ over (numbers_of (tables_of sheet.entry.now.bytes.now)) table.old }
{
    let shapes = sections.tokens;
    let states = shapes + sections.shapes;
    let places = sheet.places;
    fill_table(sheet.bytes, places.tokens, table, 0, sections.tokens);
    fill_table(sheet.bytes, places.shapes, table, shapes, sections.shapes);
    fill_table(sheet.bytes, places.states, table, states, sections.states);
}

// The tables of a sheet. Nothing is asked of its bytes, nor of the buffer's length. Only a sheet that is read writes: the numbers of its tokens, its
// shapes and its states, one table behind the other. Its text are the bytes from `Sections::TEXT_BYTES` on.
pub fn read(sheet: &[u8], table: &mut [u32]) -> Result<Sections, Unread>
    ensures { Reads (read sheet.now) table.old result table.new }
{
    let placed = Sheet::of(sheet);
    if !placed.readable() {
        return Err(Unread::Refused);
    }
    let sections = placed.sections();
    let before_states = sections.tokens + sections.shapes;
    let needed = before_states + sections.states;
    if table.len() < needed {
        return Err(Unread::NoRoom(needed));
    }
    fill(&placed, sections, table);
    Ok(sections)
}
