// What is written of an EDIF file reads back as the file (EDIF 2 0 0, edif).
//
// `reads_back`: the tokens of the written text of each file value that can be written spell that value by the grammar, whatever the length of
// the text; and where the text is within the limit of an input, it reads as the value. The crate has no program of its own: it is the half of
// that law that speaks of the grammar, beside the half of the crate `edif_lexing` that speaks of bytes. `files_read_are_written`: each file that
// some bytes read as is one that can be written, so what is written of it reads as the same file.
#![tactic(auto)]

pub mod laws;

pub use laws::{files_read_are_written, reads_back};
