// A design as an EDIF file (EDIF 2 0 0, edif).
//
// The public contract in plain words: `to_edif` answers a file, or that memory ran out. The file breaks no rule. Each design that says what
// the file says is the same as the design under the chosen cells of the constants, cell by cell, and so as a whole: it begins with exactly
// one cell for each constant that some cell needs and no cell stands for, the zero first. The file and its design are named after the top. The
// file is a planned one: the order of its cells and of their ports, instances and nets follows, and so do the names, the identifiers and the
// texts of all of these. It can be written where the names of the design have at most 1,048,000 bytes and its strings at most 1,048,576.
//
// `to_edif` takes the design. What a cell is made of is taken from it and left, with its classes, while what is written for it is made, so that
// the whole design and the whole file are not in memory at once. Such a cell keeps its name and its ports, which the cells above it need.
#![tactic(auto)]

pub mod cells;
pub mod file;
pub mod translate;

pub use translate::to_edif;
