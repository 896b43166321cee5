// Numbers in buffers compared: whether those of one are those of another.
#![tactic(auto)]

ghost use Rattle.std.specs.Prelude.{◌≡◌, ◌^◌, ◌≤◌, ◌<◌, length, replicate, take};
ghost use Rattle.rules.specs.Tables.{part};
ghost use Rattle.compare.specs.Tells.{Tells, AllFrom};

// A number of a buffer, which may be compared with one of 64 bits. It stays beside `as usize`: `equations` (proofs/Only.antt) is about it.
pub fn wide(x: u32) -> usize
    ensures { result ≡ x }
{
    x as usize
}

// Whether so many first bytes are the same. One line, and no `==` at its caller, since `answers` and an edit speak of it.
pub fn same(one: &[u8], other: &[u8], size: usize) -> bool
    requires { (size ≤ length one.now) × (size ≤ length other.now) }
    ensures { Tells (take size one.now ≡ take size other.now) result }
{
    one[..size] == other[..size]
}

// So many numbers are looked at before one that differs ends the search. One by one they took about half of the time of `cases`.
const PART: usize = 64;

// Whether all of these numbers are this one. Those behind one that differs are looked at too, so that the compiler compares several in a step.
fn all_are(numbers: &[u32], value: u32) -> bool
    ensures { Tells (numbers.now ≡ replicate (length numbers.now) value) result }
{
    numbers
        .iter()
        .fold(true, |same, &number| same & (number == value))
}

// Whether all numbers from one on are the same.
pub fn all_from(buffer: &[u32], from: usize, value: u32) -> bool
    ensures { Tells (AllFrom buffer.now from value) result }
{
    let rest = buffer.get(from..).unwrap_or(&[]);
    rest.chunks(PART).all(|part| all_are(part, value))
}

// Whether these numbers stand in the buffer from a place on.
pub fn stand_at(buffer: &[u32], from: usize, numbers: &[usize]) -> bool
    requires { (from < 2 ^ 40) × (0 < length numbers.now) × (length numbers.now < 2 ^ 40) }
    ensures { Tells (part buffer.now from (length numbers.now) ≡ numbers.now) result }
{
    if buffer.len() < from + numbers.len() {
        return false;
    }
    let there = &buffer[from..from + numbers.len()];
    there
        .iter()
        .zip(numbers)
        .all(|(&found, &number)| wide(found) == number)
}
