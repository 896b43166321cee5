// Numbers of four bytes, big-endian. A byte past the end counts as 0.
ghost use Rattle.std.specs.Prelude.{◌≡◌, ◌<◌, ◌^◌, length, get_or};
ghost use Rattle.rules.specs.Sheet.{number_at, numbers_at};

#[derive(Clone, Copy)]
pub struct Bytes;

impl Bytes {
    // A number has so many.
    pub const NUMBER: usize = 4;
}

fn octet(bytes: &[u8], at: usize) -> u8
    ensures { result ≡ get_or bytes.now at 0 }
{
    bytes.get(at).copied().unwrap_or(0)
}

// The byte at a place, or 0 past the end.
pub fn byte(bytes: &[u8], at: usize) -> usize
    ensures { (result ≡ get_or bytes.now at 0) × (result < 256) }
{
    usize::from(octet(bytes, at))
}

// The number whose first byte stands at a place.
#[tactic(auto, unfolding(rules::specs::Sheet::number_at))]
fn word(bytes: &[u8], at: usize) -> u32
    ensures { result ≡ number_at bytes.now at }
{
    let rest = bytes.get(at..).unwrap_or(&[]);
    u32::from_be_bytes([
        octet(rest, 0),
        octet(rest, 1),
        octet(rest, 2),
        octet(rest, 3),
    ])
}

// The same number in 64 bits, since lengths are summed.
pub fn number(bytes: &[u8], at: usize) -> usize
    ensures { (result ≡ number_at bytes.now at) × (result < 2 ^ 32) }
{
    word(bytes, at) as usize
}

// Numbers one after the other, from a place on, as many as the lent part has.
#[tactic(auto, using(crate::proofs::Numbers::read_more), unfolding(rules::specs::Sheet::numbers_at))]
pub fn numbers(bytes: &[u8], from: usize, part: &mut [u32])
    requires { from < 2 ^ 62 }
    ensures { part.new ≡ numbers_at bytes.now from (length part.old) }
{
    for (i, number) in part.iter_mut().enumerate() {
        *number = word(bytes, from + i * Bytes::NUMBER);
    }
}
