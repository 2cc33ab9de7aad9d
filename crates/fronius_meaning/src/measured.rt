// A measured value, three data bytes: high, low, exponent. Here in whole thousandths.
ghost use Rattle.std.specs.Prelude.{◌≡◌, false, ◌+◌, ◌*◌, ◌^◌, ◌<◌, pos, ◌*ℤ◌};
ghost use Rattle.std.specs.Int.Signed.{mag};
ghost use Rattle.fronius_meaning.specs.Measured.{IsThousandths, parts_of, tens_of, too_great, too_small, value_of};

use answers::Refusal;
use numbers::word;

// The data of a measured value: two bytes as a word, and the exponent, which is from -3 to 10.
#[derive(Clone, Copy)]
pub(crate) struct Parts {
    pub(crate) word: u16,
    pub(crate) exponent: i8,
}

// The exponents that a measured value may have.
const LOWEST: i8 = -3;

const HIGHEST: i8 = 10;

// The tests of a measured value in their order: three bytes, and an exponent in range.
pub(crate) fn parts_of(payload: &[u8]) -> Result<Parts, Refusal>
    ensures { result ≡ parts_of payload.now }
{
    let &[high, low, exponent] = payload else {
        return Err(Refusal::NotForThisCall);
    };
    // an exponent is signed: FD is -3 and not 253
    let exponent = exponent.cast_signed();
    if exponent > HIGHEST {
        return Err(Refusal::ExponentTooHigh);
    }
    if exponent < LOWEST {
        return Err(Refusal::WrongAddressOrExponentTooLow);
    }
    Ok(Parts {
        word: word(high, low),
        exponent,
    })
}

// The data of a message as a measured value in thousandths: value times ten to the exponent, exactly. The caller says whether the value is
// signed; the exponent always is.
pub fn thousandths(payload: &[u8], signed: bool) -> Result<i64, Refusal>
    ensures { IsThousandths payload.now signed result }
{
    let parts = parts_of(payload)?;
    Ok(times_ten_to(value(parts.word, signed), tens(parts.exponent)))
}

// How many tens make thousandths of a value: three more than the exponent, which may be below 0, says.
fn tens(exponent: i8) -> u32
    requires { (too_great exponent ≡ false) × (too_small exponent ≡ false) }
    ensures { (result ≡ tens_of exponent) × (result < 14) }
{
    (exponent - LOWEST) as u32
}

// The value of two bytes, which is signed as the caller says.
fn value(word: u16, signed: bool) -> i64
    ensures { (result ≡ value_of signed word) × (mag result < 65536) }
{
    if signed {
        i64::from(word.cast_signed())
    } else {
        i64::from(word)
    }
}

// Always exact: 65,536 times ten to 13 is below 2 to 63.
fn times_ten_to(v: i64, k: u32) -> i64
    requires { (mag v < 65536) × (k < 14) }
    ensures { result ≡ v *ℤ pos (10 ^ k) }
{
    v * (ten_to(k) as i64)
}

// A power of ten, as far as thousandths need them.
pub(crate) fn ten_to(k: u32) -> u64
    requires { k < 14 }
    ensures { result ≡ 10 ^ k }
{
    10_u64.pow(k)
}
