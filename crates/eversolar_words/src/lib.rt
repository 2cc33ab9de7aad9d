// Eversolar's words, which are two bytes on the wire: no other place knows their order. An address is no word, but two bytes as sent.
#![tactic(auto)]

ghost use Rattle.eversolar_words.specs.Words.{IsWord, IsBytesOf};

// The two bytes of a word, as they go on the wire.
#[derive(Clone, Copy)]
pub struct Pair {
    pub first: u8,
    pub second: u8,
}

// A word from its two bytes.
pub fn word(first: u8, second: u8) -> u16
    ensures { IsWord first second result }
{
    u16::from_be_bytes([first, second])
}

// The two bytes of a word.
pub fn bytes_of(word: u16) -> Pair
    ensures { IsBytesOf word result }
{
    let [first, second] = word.to_be_bytes();
    Pair { first, second }
}
