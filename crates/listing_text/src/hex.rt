// A list of bytes as a field of a line.
ghost use Rattle.std.specs.Prelude.{◌≡◌, ◌+◌, ◌*◌, ◌/◌, ◌%◌, ◌≤◌, ◌<◌, [], ◌∷◌, ◌++◌, length};
ghost use Rattle.listing_text.specs.Lines.{hex_digit, hex, field, field_max};
ghost use Rattle.listing_text.specs.Inside.{width_of, width_max, hex_digits, Put};

// How many bytes the field of so many takes.
pub(crate) fn width(n: usize) -> usize
    requires { n ≤ field_max }
    ensures value { result ≡ width_of n }
    ensures upper_bound { result ≤ width_max }
{
    if n == 0 { 1 } else { 2 * n }
}

// A hex digit, worked out: so a long list is done many bytes at a time.
fn digit(n: u8) -> u8
    requires { n < 16 }
    ensures { result ≡ hex_digit n }
{
    if n < 10 { 48 + n } else { 55 + n }
}

// The two digits of a byte.
fn high(b: u8) -> u8
    ensures { result ≡ hex_digit (b / 16) }
{
    digit(b / 16)
}

fn low(b: u8) -> u8
    ensures { result ≡ hex_digit (b % 16) }
{
    digit(b % 16)
}

// Two digits a byte, from index `at` on; the index after the last. That index is carried along: by `at + 2 * i` the compiler does eight bytes at once
// only where there are 24 or more.
fn put_hex(bytes: &[u8], lent: &mut [u8], at: usize) -> usize
    requires { at + 2 * length bytes.now ≤ length lent.old }
    ensures { Put lent.old at (hex bytes.now) result lent.new }
{
    let mut p = at;
    for &b in bytes {
        lent[p] = high(b);
        lent[p + 1] = low(b);
        p += 2;
    }
    p
}

// The digits in order, for what is too short for that.
const DIGITS: [u8; 16] = *b"0123456789ABCDEF";

fn digits() -> [u8; 16]
    ensures { result ≡ hex_digits }
{
    DIGITS
}

fn high_of(t: &[u8; 16], b: u8) -> u8
    requires { t.now ≡ hex_digits }
    ensures { result ≡ hex_digit (b / 16) }
{
    t[(b / 16) as usize]
}

fn low_of(t: &[u8; 16], b: u8) -> u8
    requires { t.now ≡ hex_digits }
    ensures { result ≡ hex_digit (b % 16) }
{
    t[(b % 16) as usize]
}

// The same by the table of digits.
fn put_few(bytes: &[u8], lent: &mut [u8], at: usize) -> usize
    requires { at + 2 * length bytes.now ≤ length lent.old }
    ensures { Put lent.old at (hex bytes.now) result lent.new }
{
    let t = digits();
    for (i, &b) in bytes.iter().enumerate() {
        lent[at + 2 * i] = high_of(&t, b);
        lent[at + 2 * i + 1] = low_of(&t, b);
    }
    at + 2 * bytes.len()
}

// Eight bytes at a time, and what is left of the list one by one.
fn put_all(bytes: &[u8], lent: &mut [u8], at: usize) -> usize
    requires { at + 2 * length bytes.now ≤ length lent.old }
    ensures { Put lent.old at (hex bytes.now) result lent.new }
{
    let n = bytes.len() / 8 * 8;
    let p = put_hex(&bytes[..n], lent, at);
    put_few(&bytes[n..], lent, p)
}

// The field of no bytes, and the byte that ends it.
pub(crate) fn put_none(after: u8, lent: &mut [u8], at: usize) -> usize
    requires { at + 1 < length lent.old }
    ensures put { Put lent.old at (field [] ++ (after ∷ [])) result lent.new }
    ensures value { result ≡ at + 2 }
{
    lent[at] = b'-';
    lent[at + 1] = after;
    at + 2
}

// The two digits of a byte: no loop, and no test of a length.
fn put_byte(b: u8, lent: &mut [u8], at: usize) -> usize
    requires { at + 1 < length lent.old }
    ensures { Put lent.old at (hex (b ∷ [])) result lent.new }
{
    let t = digits();
    lent[at] = high_of(&t, b);
    lent[at + 1] = low_of(&t, b);
    at + 2
}

// The field of one byte, and a space.
pub(crate) fn put_one(a: u8, lent: &mut [u8], at: usize) -> usize
    requires { at + 2 < length lent.old }
    ensures put { Put lent.old at (field (a ∷ []) ++ (32 ∷ [])) result lent.new }
    ensures value { result ≡ at + 3 }
{
    let p = put_byte(a, lent, at);
    lent[p] = b' ';
    p + 1
}

// The field of two bytes, and a space.
pub(crate) fn put_two(a: u8, b: u8, lent: &mut [u8], at: usize) -> usize
    requires { at + 4 < length lent.old }
    ensures put { Put lent.old at (field (a ∷ b ∷ []) ++ (32 ∷ [])) result lent.new }
    ensures value { result ≡ at + 5 }
{
    let p = put_byte(a, lent, at);
    put_one(b, lent, p)
}

// The field, and the byte that ends it.
pub(crate) fn put_field(bytes: &[u8], after: u8, lent: &mut [u8], at: usize) -> usize
    requires { at + width_of (length bytes.now) < length lent.old }
    ensures put { Put lent.old at (field bytes.now ++ (after ∷ [])) result lent.new }
    ensures value { result ≡ at + width_of (length bytes.now) + 1 }
{
    if bytes.len() == 0 {
        return put_none(after, lent, at);
    }
    let p = put_all(bytes, lent, at);
    lent[p] = after;
    p + 1
}
