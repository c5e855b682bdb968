// Laws that the EDIF files that are made of designs can be written.
//
// The public contract in plain words: a file whose cells are made of the cells of a design, or for a constant, can be written, where the
// names of the design have at most 1,048,000 bytes and its strings at most 1,048,576, and the names of the constants' cells and ports at
// most 1,024 (`made_files_can_be_written`). The design of a Verilog text is such a design (`sound_designs_with_short_names`); the names of
// `Constants` are such names (`stems_of`), and the identifiers of a `Head` are words (`words_of`).
//
// EDIF 2 0 0: identifiers, strings, rename, edif.
#![tactic(auto)]

pub mod laws;
pub mod words;

pub use words::{stems_of, words_of};
