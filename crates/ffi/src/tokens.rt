// A text's token rows for C and Rust.
ghost use Rattle.rules.specs.Tokeniser.{tokenise as tokeniseOf};
ghost use Rattle.ffi.specs.Exported.{HandsOut};

use cartglaze::tokenise;

// Whether the text is taken. Taken: the count of its token rows, and 0; refused: the number and the place, and nothing is written.
#[unsafe(no_mangle)]
pub extern "C" fn cartglaze_tokenise(
    text: &[u8],
    tokens: &mut [u32],
    first: &mut usize,
    second: &mut usize,
) -> bool
    ensures { let done = tokeniseOf text.now tokens.old in
        HandsOut done result first.new second.new tokens.new }
{
    match tokenise(text, tokens) {
        Ok(rows) => {
            *first = rows;
            *second = 0;
            true
        }
        Err(refused) => {
            *first = refused.number as usize;
            *second = refused.place;
            false
        }
    }
}
