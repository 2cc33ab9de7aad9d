// A reading: by its command a power, an energy, a voltage, a current, a frequency, minutes or money, as a double.
ghost use Rattle.std.specs.Prelude.{◌≡◌, false, ◌*◌, ◌^◌, ◌<◌, pos};
ghost use Rattle.std.specs.Float.{binary64};
ghost use Rattle.std.specs.Float.Ieee.{of_int, div};
ghost use Rattle.fronius_meaning.specs.Measured.{too_great, too_small};
ghost use Rattle.fronius_meaning.specs.Reading.{IsReading, maker, makers, kind_of, double_of};

use crate::measured::{parts_of, ten_to};
use answers::Refusal;

// What was measured, in the unit of its kind. Each case carries its double: docs/DECISIONS.md names this form.
#[derive(Clone, Copy, Debug, PartialEq)]
pub enum Reading {
    // W
    Power(f64),
    // kWh
    Energy(f64),
    // V
    Voltage(f64),
    // A
    Current(f64),
    // Hz
    Frequency(f64),
    Minutes(f64),
    Money(f64),
}

// Which of them a command measures: asked for before there is a double to carry.
#[derive(Clone, Copy)]
enum Kind {
    Power,
    Energy,
    Voltage,
    Current,
    Frequency,
    Minutes,
    Money,
}

impl Kind {
    // The reading of this kind that carries x.
    fn reading(self, x: f64) -> Reading
        ensures { result ≡ maker self x }
    {
        match self {
            Kind::Power => Reading::Power(x),
            Kind::Energy => Reading::Energy(x),
            Kind::Voltage => Reading::Voltage(x),
            Kind::Current => Reading::Current(x),
            Kind::Frequency => Reading::Frequency(x),
            Kind::Minutes => Reading::Minutes(x),
            Kind::Money => Reading::Money(x),
        }
    }
}

// The device that has readings: an inverter.
const INVERTER: u8 = 1;

// What a message of this device and command measures. The value is never signed. The command is asked for before the exponent is looked
// at: for another command 17 goes before 15 and 16.
#[tactic(auto, unfolding(crate::specs::Reading::reading_of))]
pub fn reading_of(device: u8, command: u8, payload: &[u8]) -> Result<Reading, Refusal>
    ensures { IsReading device command payload.now result }
{
    if device != INVERTER {
        return Err(Refusal::NotForThisCall);
    }
    let Some(kind) = kind_of(command) else {
        return Err(Refusal::NotForThisCall);
    };
    let parts = parts_of(payload)?;
    Ok(kind.reading(double(parts.word, parts.exponent)))
}

// What a command measures; another command is none's.
#[tactic(auto, unfolding(crate::specs::Reading::kind_of))]
fn kind_of(command: u8) -> Option<Kind>
    ensures { makers result ≡ kind_of command }
{
    match command {
        0x10 | 0x1A | 0x20 => Some(Kind::Power),
        0x11..=0x13 => Some(Kind::Energy),
        0x14 | 0x17 | 0x2B..=0x2D => Some(Kind::Current),
        0x15 | 0x18 | 0x1B..=0x1D | 0x21..=0x23 | 0x2E => Some(Kind::Voltage),
        0x16 => Some(Kind::Frequency),
        0x1E | 0x24 => Some(Kind::Minutes),
        0x19 | 0x1F => Some(Kind::Money),
        _ => None,
    }
}

// The double of an exponent that is neither too great nor too small.
fn double(w: u16, exponent: i8) -> f64
    requires { (too_great exponent ≡ false) × (too_small exponent ≡ false) }
    ensures { result ≡ double_of w exponent }
{
    let k = u32::from(exponent.unsigned_abs());
    if exponent < 0 {
        divided(w, k)
    } else {
        whole(w, k)
    }
}

// Exact: 65,535 times ten to 10 is below 2 to 53, up to which a double holds every whole number.
fn whole(w: u16, k: u32) -> f64
    requires { k < 11 }
    ensures { result ≡ of_int binary64 (pos (w * 10 ^ k)) }
{
    ((w as u64) * ten_to(k)) as f64
}

// Rounded once, since the value and the power of ten are both exact.
fn divided(w: u16, k: u32) -> f64
    requires { k < 4 }
    ensures { result ≡ div binary64 (of_int binary64 (pos w)) (of_int binary64 (pos (10 ^ k))) }
{
    (w as f64) / (ten_to(k) as f64)
}
