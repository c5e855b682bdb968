// Laws of the designs of Verilog files.
//
// The public contract in plain words: the design of a Verilog file that is a value, under any top and of any size, can be written as an EDIF
// text: its names have at most 1,048,000 bytes, and its strings, numbers and ranges are within the limits of both languages. Names of Verilog
// have at most 1,024 bytes (IEEE 1364-2005, 3.7), a bit of a vector is named with its index behind, and a literal that is kept as a string has
// at most 131,072 bytes and its size.
#![tactic(auto)]

pub mod laws;
