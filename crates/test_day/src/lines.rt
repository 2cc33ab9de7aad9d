// The lines that are printed, one for each message and each damage: the place after it, counted from the day's first byte, the answer's number, the bytes
// lost, the code byte, the number of data bytes, and a check number of the header and the data. All are decimal.
use crate::families::Told;
use std::io::Stdout;
use test_parts::part;

// The number of the answer that is a message (document 01).
const MESSAGE: u8 = 1;

// A check number with one number more. All that came before counts three times, so that the order matters too.
fn folded(check: u64, n: u16) -> u64 {
    check.wrapping_mul(3).wrapping_add(u64::from(n))
}

// The check number of a header, by its fields.
pub(crate) fn check_of(fields: &[u16]) -> u64 {
    fields.iter().fold(0, |check, n| folded(check, *n))
}

// The check number of a header and its data.
fn checked(header: u64, payload: &[u8]) -> u64 {
    payload
        .iter()
        .fold(header, |check, b| folded(check, u16::from(*b)))
}

// Prints the line of an answer that has one. The data of a message stand at the front of the lent buffer; a damage has no code, no data, and nothing to
// check.
pub(crate) fn print(out: Stdout, place: usize, told: Told, lent: &[u8]) {
    let _ = match told {
        Told::Message { code, len, check } => {
            let check = checked(check, part(lent, 0, len));
            println!(out; "{place} {MESSAGE} 0 {code} {len} {check}")
        }
        Told::Damage { number, lost } => println!(out; "{place} {number} {lost} 0 0 0"),
    };
}
