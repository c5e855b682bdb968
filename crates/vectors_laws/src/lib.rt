// Laws of generated files (EDIF 2 0 0, edif; IEEE 1364-2005, 12). Laws alone.
//
// The public contract in plain words: a generated file can be written, so its text reads as it; its design is the one that `specs/Designs.antt`
// says, cell by cell, and has twice as many leaves for each cell behind the first; it breaks no rule of EDIF files, its design breaks no rule
// of Verilog as a target, and the units of up to 3,000,000 cells are within the limit of a design.
#![tactic(auto)]

pub mod laws;
