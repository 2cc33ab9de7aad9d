// Fronius: the measured value of a message, and the reading that a command asks for.
#![tactic(auto)]

pub mod measured;
pub mod reading;
