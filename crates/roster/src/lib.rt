// The roster of addresses, over lent bytes: which inverter, known by its serial, has which address.
#![tactic(auto)]

ghost use Rattle.std.specs.Prelude.{◌+◌, ◌≤◌, ◌<◌, ◌≡◌, length};
ghost use Rattle.numbers.specs.Lists.{same};
ghost use Rattle.roster.specs.Roster.{places, serial_size, used_by, free, spoilt, none_at};
ghost use Rattle.roster.specs.Bytes.{roster_size, places_of};
ghost use Rattle.roster.specs.Calls.{IsGiven, IsRemoved, IsFound};
ghost use Rattle.roster.specs.Inside.{place_in, sound_at, FirstFrom, IsUsable, IsPut, IsGivenSound};

use answers::Refusal;

// The bytes of a serial.
pub const SERIAL_SIZE: usize = 16;

// The bytes of a place: its mark, then its serial.
pub const PLACE_SIZE: usize = 1 + SERIAL_SIZE;

// How many places there are: one for each address, the first for address 1.
pub const PLACES: usize = 254;

// The bytes of a roster. All zero they are one in which every place is free.
pub const ROSTER_SIZE: usize = PLACES * PLACE_SIZE;

// The two marks. Numbers, and no enum: lent bytes may hold any other, and that is what the test for 18 looks for.
const FREE: u8 = 0;

const USED: u8 = 1;

// A place, as the rule sees it. Over lent bytes it is read where it stands.
#[derive(Clone, Copy)]
pub struct Place {
    pub mark: u8,
    pub serial: [u8; SERIAL_SIZE],
}

// Whether two serials are the same. All bytes are compared, with no branch: serials of one maker differ late.
// A loop, since `==` on slices takes 44.7 instructions for two places where this takes 10.0 (`bench/run giving`).
fn same(a: &[u8], b: &[u8]) -> bool
    requires { (length a.now ≡ serial_size) × (length b.now ≡ serial_size) }
    ensures { result ≡ same a.now b.now }
{
    let mut equal = true;
    for i in 0..SERIAL_SIZE {
        equal = equal & (a[i] == b[i]);
    }
    equal
}

// Whether place k is used by a serial. Only then are serials compared.
fn used_by(roster: &[u8], k: usize, serial: &[u8]) -> bool
    requires { (length roster.now ≡ roster_size) × (k < places) × (length serial.now ≡ serial_size) }
    ensures { result ≡ used_by serial.now (place_in roster.now k) }
{
    let at = k * PLACE_SIZE;
    if roster[at] != USED {
        return false;
    }
    let from = at + 1;
    let end = at + PLACE_SIZE;
    same(&roster[from..end], serial)
}

// The first place from `from` on that a serial uses.
fn user(roster: &[u8], from: usize, serial: &[u8]) -> Option<usize>
    requires { (length roster.now ≡ roster_size) × (from ≤ places) × (length serial.now ≡ serial_size) }
    ensures { FirstFrom (used_by serial.now) (places_of roster.now) from result }
{
    for k in from..PLACES {
        if used_by(roster, k, serial) {
            return Some(k);
        }
    }
    None
}

// The first free place.
fn lowest_free(roster: &[u8]) -> Option<usize>
    requires { length roster.now ≡ roster_size }
    ensures { FirstFrom free (places_of roster.now) 0 result }
{
    for k in 0..PLACES {
        let at = k * PLACE_SIZE;
        if roster[at] == FREE {
            return Some(k);
        }
    }
    None
}

// Whether place k is as a place has to be, and no place behind it shares its serial.
fn place_sound(roster: &[u8], k: usize) -> bool
    requires { (length roster.now ≡ roster_size) × (k < places) }
    ensures { result ≡ sound_at roster.now k }
{
    let at = k * PLACE_SIZE;
    let from = at + 1;
    let end = at + PLACE_SIZE;
    let mark = roster[at];
    if mark == USED {
        return user(roster, k + 1, &roster[from..end]).is_none();
    }
    if mark != FREE {
        return false;
    }
    let unused = [0; SERIAL_SIZE];
    same(&roster[from..end], &unused)
}

// The test for 18, run once a call.
fn is_spoilt(roster: &[u8]) -> bool
    ensures { result ≡ spoilt (places_of roster.now) }
{
    if roster.len() != ROSTER_SIZE {
        return true;
    }
    for k in 0..PLACES {
        if !place_sound(roster, k) {
            return true;
        }
    }
    false
}

// Makes place k this one.
fn put(roster: &mut [u8], k: usize, mark: u8, serial: &[u8])
    requires { (length roster.old ≡ roster_size) × (k < places) × (length serial.now ≡ serial_size) }
    ensures { IsPut roster.old k (record { mark = mark; serial = serial.now }) roster.new }
{
    let at = k * PLACE_SIZE;
    let from = at + 1;
    roster[at] = mark;
    roster[from..from + SERIAL_SIZE].copy_from_slice(serial);
}

// The address of place k.
fn address_of(k: usize) -> u8
    requires { k < places }
    ensures { result ≡ k + 1 }
{
    (k + 1) as u8
}

// Gives a serial its address in a roster that was tested, so that many can be given after one test.
fn give_sound(roster: &mut [u8], serial: &[u8]) -> Result<u8, Refusal>
    requires { (length roster.old ≡ roster_size) × (length serial.now ≡ serial_size) }
    ensures { IsGivenSound roster.old serial.now result roster.new }
{
    if let Some(k) = user(&*roster, 0, serial) {
        return Ok(address_of(k));
    }
    let Some(lowest) = lowest_free(&*roster) else {
        return Err(Refusal::RosterFull);
    };
    put(roster, lowest, USED, serial);
    Ok(address_of(lowest))
}

// The tests for 18 and 17, in this order.
fn usable(roster: &[u8], serial: &[u8]) -> Result<(), Refusal>
    ensures { IsUsable roster.now serial.now result }
{
    if is_spoilt(roster) {
        return Err(Refusal::Spoilt);
    }
    if serial.len() != SERIAL_SIZE {
        return Err(Refusal::NotForThisCall);
    }
    Ok(())
}

// Gives a serial an address: the one that it has, else the lowest free one. With a refusal the roster is as it was.
pub fn give(roster: &mut [u8], serial: &[u8]) -> Result<u8, Refusal>
    ensures { IsGiven roster.old serial.now result roster.new }
{
    usable(&*roster, serial)?;
    give_sound(roster, serial)
}

// Whether an address is one that nobody has: 0, 255 or free.
fn none_at(roster: &[u8], address: u8) -> bool
    requires { length roster.now ≡ roster_size }
    ensures { result ≡ none_at (places_of roster.now) address }
{
    let a = address as usize;
    if a == 0 {
        return true;
    }
    if PLACES < a {
        return true;
    }
    let at = (a - 1) * PLACE_SIZE;
    roster[at] == FREE
}

// Frees the place of an address. With a refusal the roster is as it was.
pub fn remove(roster: &mut [u8], address: u8) -> Result<(), Refusal>
    ensures { IsRemoved roster.old address result roster.new }
{
    if is_spoilt(&*roster) {
        return Err(Refusal::Spoilt);
    }
    if none_at(&*roster, address) {
        return Err(Refusal::WrongAddressOrExponentTooLow);
    }
    let k = address as usize - 1;
    let zeros = [0; SERIAL_SIZE];
    put(roster, k, FREE, &zeros);
    Ok(())
}

// The address of a serial, where it has one.
pub fn find(roster: &[u8], serial: &[u8]) -> Result<Option<u8>, Refusal>
    ensures { IsFound roster.now serial.now result }
{
    usable(roster, serial)?;
    Ok(user(roster, 0, serial).map(address_of))
}
