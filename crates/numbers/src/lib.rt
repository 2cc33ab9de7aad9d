// Numbers as more than one crate needs them: the smaller of two, and bytes read as larger numbers.
#![tactic(auto)]

ghost use Rattle.numbers.specs.Numbers.{IsLeast, IsWord, IsWide};

// The smaller of two numbers.
pub fn least(a: usize, b: usize) -> usize
    ensures { IsLeast a b result }
{
    a.min(b)
}

// Two bytes as one number, high byte first.
pub fn word(high: u8, low: u8) -> u16
    ensures { IsWord high low result }
{
    u16::from_be_bytes([high, low])
}

// A byte as a length.
pub fn wide(byte: u8) -> usize
    ensures { IsWide byte result }
{
    usize::from(byte)
}
