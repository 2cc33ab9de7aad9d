// The waits after a register conflict.
ghost use Rattle.eversolar_meaning.specs.Waits.{IsWait};

use answers::Refusal;

// The last attempt.
const LAST: u8 = 4;

// What the serial number is divided by.
const DIVISOR: u64 = 15;

// How many intervals between the master's off-line queries (001, 1.2) an inverter waits before it asks again for an address. How long one
// is, 001 leaves to the master. Attempt 1 waits 0. Each later attempt waits the remainder by 15 of what is left, and leaves the quotient by
// 15 to the attempt after it.
// A recursion and no loop: docs/DECISIONS.md, "Forms that the paper names", asks for it.
#[tactic(auto, unfolding(crate::specs::Waits::wait_of, crate::specs::Waits::wait_at))]
pub fn wait_of(serial: u64, attempt: u8) -> Result<u64, Refusal>
    ensures { IsWait serial attempt result }
{
    match attempt {
        1 => Ok(0),
        2 => Ok(serial % DIVISOR),
        3..=LAST => wait_of(serial / DIVISOR, attempt - 1),
        _ => Err(Refusal::NotForThisCall),
    }
}
