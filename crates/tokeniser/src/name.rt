// Where names end: a command's behind its backslash, and an environment's in its braces.
ghost use Rattle.std.specs.Prelude.{◌≡◌, ◌+◌, ◌≤◌, [], ◌∷◌, length, drop};
ghost use Rattle.rules.specs.Commands.{name_size, in_braces};
ghost use Rattle.rules.specs.Patterns.{in_front};
ghost use Rattle.tokeniser.specs.Answers.{named_in};
ghost use Rattle.tokeniser.specs.Bytes.{Ascii};

use crate::class::{Class, run_end};

// Whether this byte stands at a place.
pub fn stands(text: &[u8], at: usize, byte: u8) -> bool
    ensures { result ≡ in_front (byte ∷ []) (drop at text.now) }
{
    text.get(at) == Some(&byte)
}

// Where the name ends that begins at a place: behind the longest run of letters, else behind one byte, else where it begins.
pub fn name_end(text: &[u8], from: usize) -> usize
    requires { (from ≤ length text.now) × Ascii text.now }
    ensures { result ≡ from + name_size (drop from text.now) }
{
    let end = run_end(text, from, Class::Letter);
    if from < end {
        return end;
    }
    if from < text.len() {
        return from + 1;
    }
    from
}

// How long the name is that stands at a place in braces, if one does.
#[tactic(auto, using(crate::proofs::Stops::braces))]
pub fn in_braces(text: &[u8], from: usize) -> Option<usize>
    requires { (from ≤ length text.now) × Ascii text.now }
    ensures { result ≡ named_in (in_braces (drop from text.now)) }
{
    if !stands(text, from, b'{') {
        return None;
    }
    let start = from + 1;
    let end = run_end(text, start, Class::Name);
    if start < end && stands(text, end, b'}') {
        return Some(end - start);
    }
    None
}
