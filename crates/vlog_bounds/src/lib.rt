// What the readers of Verilog keep of the tokens of a text (IEEE 1364-2005, 3 and 12).
//
// Three laws. `tokens_are_sound`: each token of a text of bytes is one that a text can have: its name, number, real, based digits or string
// is within its limits. `files_read_are_values`: each file that some bytes read as is one that can be written, as `IsVlogValue` of the crate
// `vlog_values` says. `size_within`: each item of each list of a file, at every depth, has at least one token of its own, so a file that was
// read has no more items than its text has tokens, and these are no more than its bytes, which are within the limit of an input. The crate
// has no program of its own.
#![tactic(auto)]

pub mod laws;

pub use laws::{files_read_are_values, size_within, tokens_are_sound};
