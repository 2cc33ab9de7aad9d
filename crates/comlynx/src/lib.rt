// ComLynx: reader, reader of slices, and writer.
#![tactic(auto)]

pub mod reader;
mod search;
pub mod slice;
pub mod stretch;
pub mod writer;

// The checksum that this build goes by: this line, and the crates that `comlynx` stands on in crates.txt, are all that bin/small-board changes.
use comlynx_checksum as checksum;
pub use reader::{Answer, Header, Reader, Step, StepInPlace, step_in_place};
pub use slice::{Found, answer_at};
pub use stretch::judge_stretch;
pub use writer::write;
