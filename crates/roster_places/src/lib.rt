// The roster of addresses, over a lent slice of 254 structs. A function over the slice only takes it apart and puts one place back:
// what is to be done is decided over its bytes, by `roster`. `held` is the same over places by value.
#![tactic(auto)]

pub mod held;

ghost use Rattle.std.specs.Prelude.{◌≡◌, ◌+◌, ◌≤◌, ◌<◌, length, set, take, drop};
ghost use Rattle.roster.specs.Roster.{places, serial_size, free_place};
ghost use Rattle.roster.specs.Bytes.{roster_size, places_of};
ghost use Rattle.roster.specs.Inside.{place_in};
ghost use Rattle.roster_places.specs.Calls.{IsGiven, IsRemoved, IsFound};
ghost use Rattle.roster_places.specs.Inside.{IsGathered};

use answers::Refusal;
pub use held::{Held, find_held, give_held, remove_held};
use roster::{PLACE_SIZE, PLACES, Place, ROSTER_SIZE, SERIAL_SIZE};

// A free place.
fn free() -> Place
    ensures { result ≡ free_place }
{
    Place {
        mark: 0,
        serial: [0; SERIAL_SIZE],
    }
}

// Writes place k into a roster's bytes. `roster` keeps its own `put` inside, since a public one would require something of its callers.
fn put(all: &mut [u8; ROSTER_SIZE], k: usize, place: Place)
    requires { k < places }
    ensures { places_of all.new ≡ set (places_of all.old) k place }
{
    let at = k * PLACE_SIZE;
    let from = at + 1;
    let serial = place.serial;
    all[at] = place.mark;
    all[from..from + SERIAL_SIZE].copy_from_slice(&serial);
}

// The bytes of the places, or 18 where there are not 254.
fn gather(ps: &[Place]) -> Result<[u8; ROSTER_SIZE], Refusal>
    ensures { IsGathered ps.now result }
{
    if ps.len() != PLACES {
        return Err(Refusal::Spoilt);
    }
    let mut all = [0; ROSTER_SIZE];
    for (k, place) in ps.iter().enumerate() {
        put(&mut all, k, *place);
    }
    Ok(all)
}

// The 16 bytes from `at` on.
fn serial_in(b: &[u8], at: usize) -> [u8; SERIAL_SIZE]
    requires { at + serial_size ≤ length b.now }
    ensures { result ≡ take serial_size (drop at b.now) }
{
    let mut serial = [0; SERIAL_SIZE];
    serial.copy_from_slice(&b[at..at + SERIAL_SIZE]);
    serial
}

// Place k of a roster's bytes.
fn place_in(b: &[u8], k: usize) -> Place
    requires { (length b.now ≡ roster_size) × (k < places) }
    ensures { result ≡ place_in b.now k }
{
    let at = k * PLACE_SIZE;
    Place {
        mark: b[at],
        serial: serial_in(b, at + 1),
    }
}

// Gives a serial an address: the one that it has, else the lowest free one. With a refusal the places are as they were.
pub fn give(ps: &mut [Place], serial: &[u8]) -> Result<u8, Refusal>
    ensures { IsGiven ps.old serial.now result ps.new }
{
    let mut later = gather(&*ps)?;
    let address = roster::give(&mut later, serial)?;
    let k = address as usize - 1;
    ps[k] = place_in(&later, k);
    Ok(address)
}

// Frees the place of an address. With a refusal the places are as they were.
pub fn remove(ps: &mut [Place], address: u8) -> Result<(), Refusal>
    ensures { IsRemoved ps.old address result ps.new }
{
    let mut left = gather(&*ps)?;
    roster::remove(&mut left, address)?;
    ps[address as usize - 1] = free();
    Ok(())
}

// The address of a serial, where it has one.
pub fn find(ps: &[Place], serial: &[u8]) -> Result<Option<u8>, Refusal>
    ensures { IsFound ps.now serial.now result }
{
    let all = gather(ps)?;
    roster::find(&all, serial)
}
