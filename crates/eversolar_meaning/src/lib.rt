// Eversolar: the total energy of a reply, and the waits after a register conflict.
#![tactic(auto)]

pub mod energy;
pub mod waits;

pub use energy::total_energy;
pub use waits::wait_of;
