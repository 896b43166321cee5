// Bytes into a lent buffer, one behind the other. Each function is handed how many there are and answers how many there are then. Past the buffer's
// end they are counted and not written; the count stays at the largest number once it is there.
// Buffer and count are two parameters, since a struct of both is no plainer: each contract would also say that it still lends the same buffer.
ghost use Rattle.rules.specs.Listing.{decimal, numbered, blank};
ghost use Rattle.listings.specs.Contract.{Wrote};
ghost use Rattle.std.specs.Prelude.{[], ◌∷◌};

const BLANK: u8 = b' ';

// One byte more.
pub fn put(out: &mut [u8], at: usize, byte: u8) -> usize
    ensures { Wrote (byte ∷ []) out.old at out.new result }
{
    if at < out.len() {
        out[at] = byte;
    }
    at.saturating_add(1)
}

// Several bytes.
pub fn word(out: &mut [u8], at: usize, bytes: &[u8]) -> usize
    ensures { Wrote bytes.now out.old at out.new result }
{
    let mut next = at;
    for &byte in bytes {
        next = put(out, next, byte);
    }
    next
}

// A number in decimal digits, with no 0 in front: what stands before its last digit is a number too. `write!` is no plainer, since it hands back a
// `fmt::Result` that counting never needs.
pub fn number(out: &mut [u8], at: usize, n: usize) -> usize
    ensures { Wrote (decimal n) out.old at out.new result }
{
    if n < 10 {
        return put(out, at, b'0' + n as u8);
    }
    let next = number(out, at, n / 10);
    put(out, next, b'0' + (n % 10) as u8)
}

// A blank and a number.
pub fn field(out: &mut [u8], at: usize, n: usize) -> usize
    ensures { Wrote (blank ∷ decimal n) out.old at out.new result }
{
    let next = put(out, at, BLANK);
    number(out, next, n)
}

// Numbers, a blank before each.
pub fn fields(out: &mut [u8], at: usize, numbers: &[u32]) -> usize
    ensures { Wrote (numbered numbers.now) out.old at out.new result }
{
    let mut next = at;
    for &n in numbers {
        next = field(out, next, n as usize);
    }
    next
}
