// The characters of a text: UTF-8 by the grammar of RFC 3629, section 4.
ghost use Rattle.std.specs.Prelude.{◌≡◌, false, [], ◌∷◌};
ghost use Rattle.rules.specs.Characters.{begins, char_length, is_utf8};

// "UTF8-tail = %x80-BF"
const TAIL: (u8, u8) = (0x80, 0xBF);

// Whether the bytes begin with one of each range in turn.
fn begins(bytes: &[u8], ranges: &[(u8, u8)]) -> bool
    ensures { result ≡ begins ranges.now bytes.now }
{
    ranges.len() <= bytes.len()
        && ranges
            .iter()
            .zip(bytes)
            .all(|(range, byte)| range.0 <= *byte && *byte <= range.1)
}

// The length of the first character where that is not one of a single byte, or 0 where the bytes begin with none. The lines are the grammar's
// alternatives, in its order.
#[tactic(auto, unfolding(rules::specs::Characters::char_length))]
fn wide_len(bytes: &[u8]) -> usize
    requires { begins ((0x00, 0x7F) ∷ []) bytes.now ≡ false }
    ensures { result ≡ char_length bytes.now }
{
    if begins(bytes, &[(0xC2, 0xDF), TAIL]) {
        return 2;
    }
    // Not from 80 on: that would be an overlong form.
    if begins(bytes, &[(0xE0, 0xE0), (0xA0, 0xBF), TAIL]) {
        return 3;
    }
    if begins(bytes, &[(0xE1, 0xEC), TAIL, TAIL]) {
        return 3;
    }
    // Not up to BF: those would be surrogates.
    if begins(bytes, &[(0xED, 0xED), (0x80, 0x9F), TAIL]) {
        return 3;
    }
    if begins(bytes, &[(0xEE, 0xEF), TAIL, TAIL]) {
        return 3;
    }
    // Overlong again below 90.
    if begins(bytes, &[(0xF0, 0xF0), (0x90, 0xBF), TAIL, TAIL]) {
        return 4;
    }
    if begins(bytes, &[(0xF1, 0xF3), TAIL, TAIL, TAIL]) {
        return 4;
    }
    // From 90 on the character would lie over U+10FFFF.
    if begins(bytes, &[(0xF4, 0xF4), (0x80, 0x8F), TAIL, TAIL]) {
        return 4;
    }
    0
}

// The length of the first character, or 0 where the bytes begin with none. Most have a single byte, so that one is asked here. The 0 is no `None`,
// since the contract's `char_length` answers it.
#[tactic(auto, unfolding(rules::specs::Characters::char_length))]
pub fn char_len(bytes: &[u8]) -> usize
    ensures { result ≡ char_length bytes.now }
{
    match bytes.first() {
        Some(first) if first.is_ascii() => 1,
        _ => wide_len(bytes),
    }
}

// Whether the bytes are characters one after the other. A character of a single byte is told by that byte, without a call.
#[tactic(auto, using(crate::proofs::Utf8::turns))]
pub fn is_utf8(bytes: &[u8]) -> bool
    ensures { result ≡ is_utf8 bytes.now }
{
    let mut rest = bytes;
    while let Some(first) = rest.first() {
        let size = if first.is_ascii() { 1 } else { wide_len(rest) };
        if size == 0 {
            return false;
        }
        rest = &rest[size..];
    }
    true
}
