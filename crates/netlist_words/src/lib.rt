// The words behind the program's name, and the command for which they ask.
//
// The public contract in plain words: `Command::of` answers the command exactly where the words are those of one, and none exactly where
// they are those of none; memory may run out only where they ask for one. Options stand behind a command's word in the order of its form,
// `--top NAME`, `--zero CELL.PORT` and `--one CELL.PORT`, each at most once, and `--parameter NAME` any number of times. A name is any
// word with a byte or more. CELL.PORT is taken apart at its last `.`, and the names of the constants are those that `Constants::check`
// takes: the cells differ, and each name has 1 to 1,024 bytes. An option that is left out has its part of `GND.G` and `VCC.P`. The
// numbers of `generate SEED CELLS` are decimals without sign and without leading zeros, below 2^64 and from 2 to 100,000. Words ask for one
// command at most (`proofs/OneCommand.antt`).
#![tactic(auto)]

pub mod command;
mod constants;
mod numbers;
mod options;

pub use command::Command;
