// What a type byte means with the data beside it, and the parts of an address.
#![tactic(auto)]

ghost use Rattle.std.specs.Prelude.{◌≡◌};
ghost use Rattle.comlynx_meaning.specs.Meaning.{code_of, IsMeaning, IsAddress, IsWord};

use answers::Refusal;

// What a message says.
#[derive(Clone, Copy, Debug, PartialEq, Eq)]
pub enum Meaning {
    // each with its id
    Request(u8),
    Reply(u8),
    // each with its id and its code
    TransmissionError(u8, u8),
    ApplicationError(u8, u8),
}

// The code of an error reply is its one data byte.
fn code_of(payload: &[u8]) -> Result<u8, Refusal>
    ensures { result ≡ code_of payload.now }
{
    match payload {
        [code] => Ok(*code),
        _ => Err(Refusal::NotForThisCall),
    }
}

// The meaning of any type byte with any data.
#[tactic(auto, unfolding(crate::specs::Meaning::meant))]
pub fn meaning_of(kind: u8, payload: &[u8]) -> Result<Meaning, Refusal>
    ensures { IsMeaning kind payload.now result }
{
    // bits 0 to 4
    let id = kind % 32;
    // bits 7, 6 and 5: a reply, a transmission error, an application error
    match kind / 32 {
        0b000 => Ok(Meaning::Request(id)),
        0b100 => Ok(Meaning::Reply(id)),
        0b110 => Ok(Meaning::TransmissionError(id, code_of(payload)?)),
        0b101 => Ok(Meaning::ApplicationError(id, code_of(payload)?)),
        // an error bit in a request, or both error bits
        _ => Err(Refusal::NotForThisCall),
    }
}

// An address has 4, 4 and 8 bits. Node 255 is every node.
#[derive(Clone, Copy, Debug, PartialEq, Eq)]
pub struct Address {
    pub network: u8,
    pub subnet: u8,
    pub node: u8,
}

// The parts of an address as it stands in a header.
// A function and no `From`, as `word_of` is no `TryFrom`: docs/PROMISES.md names both, each with its law, `address_of_one` and `word_of_one`.
pub fn address_of(word: u16) -> Address
    ensures { IsAddress word result }
{
    let [nets, node] = word.to_be_bytes();
    Address {
        network: nets / 16,
        subnet: nets % 16,
        node,
    }
}

// The highest number of 4 bits.
const FOUR_BITS: u8 = 15;

// An address as it stands in a header, from its parts. A network or a subnet above 15 is refused.
#[tactic(auto, unfolding(crate::specs::Meaning::word_of))]
pub fn word_of(a: Address) -> Result<u16, Refusal>
    ensures { IsWord a result }
{
    if a.network > FOUR_BITS || a.subnet > FOUR_BITS {
        return Err(Refusal::WrongAddressOrExponentTooLow);
    }
    Ok(u16::from_be_bytes([a.network * 16 + a.subnet, a.node]))
}
