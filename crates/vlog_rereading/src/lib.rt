// What is written of a Verilog file reads back as the file (IEEE 1364-2005, A.1.2).
//
// `reads_back`: the tokens of the written text of each file value that can be written spell that value by the grammar, whatever the length of
// the text; and where the text is within the limit of an input, it reads as the value. `files_read_are_written`: so the normal text of a file
// that was read is its own normal text. The crate has no program of its own: it is the half of that law that speaks of the grammar, beside
// the half of the crate `vlog_lexing` that speaks of bytes.
#![tactic(auto)]

pub mod laws;

pub use laws::{files_read_are_written, reads_back};
