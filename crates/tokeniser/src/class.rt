// Classes of bytes, and how far bytes of one go.
ghost use Rattle.std.specs.Prelude.{◌≡◌, ◌+◌, ◌≤◌, ◌<◌, length, drop};
ghost use Rattle.rules.specs.Patterns.{run};
ghost use Rattle.tokeniser.specs.Bytes.{class_of, Tells, Ascii};

// The classes of token.rs's patterns, letters, and what an environment's name is made of.
#[derive(Clone, Copy)]
pub enum Class {
    Break,
    Blank,
    NoBreak,
    Word,
    Letter,
    Name,
}

// A digit for each byte under 128, 1 where the byte is of the class: the last digit of `low` is that of byte 0, the last of `high` that of byte 64.
#[derive(Clone, Copy)]
struct Bits {
    low: u64,
    high: u64,
}

impl Class {
    fn bits(self) -> Bits
        ensures { Tells (class_of self) result }
    {
        match self {
            Self::Break => Bits {
                low: 0x0000_0000_0000_2400,
                high: 0x0000_0000_0000_0000,
            },
            Self::Blank => Bits {
                low: 0x0000_0001_0000_1A00,
                high: 0x0000_0000_0000_0000,
            },
            Self::NoBreak => Bits {
                low: 0xFFFF_FFFF_FFFF_DBFF,
                high: 0xFFFF_FFFF_FFFF_FFFF,
            },
            Self::Word => Bits {
                low: 0xF7FF_6802_FFFF_C1FF,
                high: 0x97FF_FFFF_07FF_FFFE,
            },
            Self::Letter => Bits {
                low: 0x0000_0000_0000_0000,
                high: 0x07FF_FFFE_07FF_FFFE,
            },
            Self::Name => Bits {
                low: 0x0000_0400_0000_0000,
                high: 0x07FF_FFFE_07FF_FFFE,
            },
        }
    }

    // Whether a byte is of the class.
    pub fn has(self, byte: u8) -> bool
        requires { byte < 128 }
        ensures { result ≡ class_of self byte }
    {
        let bits = self.bits();
        let digits = if byte < 64 { bits.low } else { bits.high };
        (digits >> (byte % 64)) % 2 == 1
    }
}

// Where the bytes of a class end that begin at a place.
#[tactic(auto, using(crate::proofs::Bytes::runs))]
pub fn run_end(text: &[u8], from: usize, class: Class) -> usize
    requires { (from ≤ length text.now) × Ascii text.now }
    ensures { result ≡ from + run (class_of class) (drop from text.now) }
{
    for at in from..text.len() {
        if !class.has(text[at]) {
            return at;
        }
    }
    text.len()
}
