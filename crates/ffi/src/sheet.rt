// A sheet, read for C and Rust: what it comes to is handed out number by number.
ghost use Rattle.rules.specs.Sheet.{read as read_of};
ghost use Rattle.ffi.specs.Exported.{handed, Hands};

use cartglaze::{Unread, read};

// Whether the sheet is read: the numbers of its tables stand in the lent ones, and its sections have so much. If it is not, nothing is written, and
// `needed` tells a buffer that is too short from refusal 9.
#[unsafe(no_mangle)]
pub extern "C" fn cartglaze_read(
    sheet: &[u8],
    numbers: &mut [u32],
    text: &mut usize,
    tokens: &mut usize,
    shapes: &mut usize,
    states: &mut usize,
    needed: &mut usize,
) -> bool
    ensures { let counts = handed result text.new tokens.new shapes.new states.new needed.new in
        Hands (read_of sheet.now) numbers.old counts numbers.new }
{
    let found = read(sheet, numbers);
    let sections = found.unwrap_or_default();
    *text = sections.text;
    *tokens = sections.tokens;
    *shapes = sections.shapes;
    *states = sections.states;
    *needed = match found {
        Ok(_) => 0,
        Err(Unread::Refused) => 0,
        Err(Unread::NoRoom(count)) => count,
    };
    found.is_ok()
}
