// A number as a field of a line.
ghost use Rattle.std.specs.Prelude.{◌≡◌, ◌+◌, ◌≤◌, ◌<◌, [], ◌∷◌, ◌++◌, length};
ghost use Rattle.listing_text.specs.Lines.{decimal};
ghost use Rattle.listing_text.specs.Inside.{places_max, Put};

// How many digits a number has.
pub(crate) fn places(n: u64) -> usize
    ensures value { result ≡ length (decimal n) }
    ensures upper_bound { result ≤ places_max }
{
    if 10 <= n {
        return places(n / 10) + 1;
    }
    1
}

// The digits, from index `at` on; the index after the last.
fn put_decimal(n: u64, lent: &mut [u8], at: usize) -> usize
    requires { at + length (decimal n) ≤ length lent.old }
    ensures { Put lent.old at (decimal n) result lent.new }
{
    let d = 48 + (n % 10) as u8;
    if n < 10 {
        lent[at] = d;
        return at + 1;
    }
    let p = put_decimal(n / 10, lent, at);
    lent[p] = d;
    p + 1
}

// The digits, and the byte that ends the field. A port, and most numbers, have one digit: that is done without a call.
pub(crate) fn put_number(n: u64, after: u8, lent: &mut [u8], at: usize) -> usize
    requires { at + length (decimal n) < length lent.old }
    ensures put { Put lent.old at (decimal n ++ (after ∷ [])) result lent.new }
    ensures value { result ≡ at + length (decimal n) + 1 }
{
    if n <= 9 {
        lent[at] = 48 + n as u8;
        lent[at + 1] = after;
        return at + 2;
    }
    let p = put_decimal(n, lent, at);
    lent[p] = after;
    p + 1
}
