// Eversolar: streaming reader, reader of slices and writer.
#![tactic(auto)]

pub mod reader;
pub mod slice;
pub mod writer;

pub use reader::{Answer, Header, Reader, Step, StepInPlace, step_in_place};
pub use slice::{Found, answer_at};
pub use writer::write;
