// The roster over places that the caller holds by value: each call lends the array to the call over a slice, and hands it
// back with the answer.
ghost use Rattle.roster_places.specs.Calls.{IsGiven, IsRemoved, IsFound};

use crate::{find, give, remove};
use answers::Refusal;
use roster::{PLACES, Place};

// What a call came to, and the places now.
#[derive(Drop)]
pub struct Held<T> {
    pub places: [Place; PLACES],
    pub told: Result<T, Refusal>,
}

// Gives a serial an address, as `give` does.
pub fn give_held(places: [Place; PLACES], serial: &[u8]) -> Held<u8>
    ensures { IsGiven places serial.now result.told result.places }
{
    let mut later = places;
    let told = give(&mut later, serial);
    Held {
        places: later,
        told,
    }
}

// Frees the place of an address, as `remove` does.
pub fn remove_held(places: [Place; PLACES], address: u8) -> Held<()>
    ensures { IsRemoved places address result.told result.places }
{
    let mut left = places;
    let told = remove(&mut left, address);
    Held { places: left, told }
}

// The address of a serial, as `find` tells it.
pub fn find_held(places: [Place; PLACES], serial: &[u8]) -> Result<Option<u8>, Refusal>
    ensures { IsFound places serial.now result }
{
    find(&places, serial)
}
