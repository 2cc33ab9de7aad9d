// The files that the programs `test_probe_readers`, `test_probe_listing` and `test_probe_calls` share: each has a copy of them, and proves it as its own.
// They read standard input and write standard output, of which no promise can say what comes, so that none of their functions is public. `input` stands in
// each program that reads so, for the bench and the sample too. No other crate calls this one.
#![tactic(auto)]

mod heads;
mod input;
mod session;
mod states;
mod wire;
