// The total energy of a reply 11/90.
ghost use Rattle.std.specs.Prelude.{◌≡◌, ◌+◌, ◌*◌, ◌<◌, ◌≤◌, length};
ghost use Rattle.eversolar_meaning.specs.Energy.{item, IsEnergy};

use answers::Refusal;
use eversolar_words::word;

// What a reply with the total energy says of itself.
const CONTROL: u8 = 0x11;

const FUNCTION: u8 = 0x90;

// The data items that make up the total, the high word first.
const HIGH: usize = 20;

const LOW: usize = 21;

// What a reply has at least, so that both are there.
const LEAST: usize = 2 * (LOW + 1);

// Data item `k`, a word.
#[tactic(auto, unfolding(crate::specs::Energy::item))]
fn item(payload: &[u8], k: usize) -> u16
    requires { (2 * k + 1 < length payload.now) × (k ≤ 127) }
    ensures { result ≡ item payload.now k }
{
    word(payload[2 * k], payload[2 * k + 1])
}

// The energy that an inverter has delivered in all, in tenths of a kWh, from a reply of this control and function.
#[tactic(auto, unfolding(crate::specs::Energy::energy_of))]
pub fn total_energy(control: u8, function: u8, payload: &[u8]) -> Result<u32, Refusal>
    ensures { IsEnergy control function payload.now result }
{
    if control != CONTROL || function != FUNCTION || payload.len() < LEAST {
        return Err(Refusal::NotForThisCall);
    }
    let high = item(payload, HIGH);
    let low = item(payload, LOW);
    Ok(65536 * (high as u32) + low as u32)
}
