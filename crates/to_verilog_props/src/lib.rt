// Properties of a design as attributes and parameters of a Verilog file (IEEE 1364-2005, 3.8 and 12.2).
//
// The public contract in plain words: of each name the last property is written, at its place; the attributes of a list of properties mean
// these properties again, and so do the attributes and the parameters of an instance, where no boolean is to be a parameter.
#![tactic(auto)]

pub mod constants;
pub mod laws;
pub mod written;

pub use written::{Given, attrs_of, attrs_of_list, given_of};
