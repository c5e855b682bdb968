// What the tests of the program stand on: what a run is given and what it is to give, and the texts and designs that are run.
//
// There is no test here: the crates of tests share it, so that it is proved once. What is run is a type parameter, which they name, so that this
// crate stands beside the program's crates and not above them.
#![tactic(auto)]

pub mod blanks;
pub mod designs;
pub mod given;
pub mod texts;
