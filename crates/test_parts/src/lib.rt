// What the programs for tests, sample and bench share. Every call takes any index: a byte past the end is 0, and of a part there is what
// there is, so that no program owes a proof for it.
#![tactic(auto)]

ghost use Rattle.test_parts.specs.Parts.{IsFurther, IsByteAt, IsWordAt, IsPart, IsLowOf, IsHighOf};

// How long a buffer is that holds the input of most programs here.
pub const LARGE: usize = 65536;

// The families, by the numbers of their ports.
pub const COMLYNX: u8 = 1;

pub const EVERSOLAR: u8 = 2;

pub const FRONIUS: u8 = 3;

pub const DRIVES: u8 = 4;

// The index so many bytes further on, or the greatest that there is.
pub fn further(at: usize, n: usize) -> usize
    ensures { IsFurther at n result }
{
    at.saturating_add(n)
}

// The byte at an index.
pub fn byte_at(s: &[u8], at: usize) -> u8
    ensures { IsByteAt s.now at result }
{
    s.get(at).copied().unwrap_or(0)
}

// The byte at an index as a length.
pub fn size_at(s: &[u8], at: usize) -> usize
    ensures { IsByteAt s.now at result }
{
    usize::from(byte_at(s, at))
}

// So many bytes from an index on, or what there is of them.
pub fn part(s: &[u8], at: usize, n: usize) -> &[u8]
    ensures { IsPart s.now at n result.now }
{
    let from = at.min(s.len());
    let to = further(from, n).min(s.len());
    &s[from..to]
}

// The number of two bytes at an index, high byte first.
pub fn word_at(s: &[u8], at: usize) -> u16
    ensures { IsWordAt s.now at result }
{
    let pair = part(s, at, 2);
    u16::from_be_bytes([byte_at(pair, 0), byte_at(pair, 1)])
}

// The low byte of a number.
pub fn low(n: usize) -> u8
    ensures { IsLowOf n result }
{
    n.to_le_bytes()[0]
}

// The byte above the low one.
pub fn high(n: usize) -> u8
    ensures { IsHighOf n result }
{
    n.to_le_bytes()[1]
}
