// Flattened designs can be written.
//
// The public contract in plain words: where the values of a design are within the limits of both languages, so are those of its flattened
// design; and where the names of a design are made of bytes, those of the flattened design are bytes of which there are at most 1,048,000: no
// rule of flattened designs lets another name than a net's have more than 1,024, and a net has its number as its name. So the flattened design
// of each design that is answered for an EDIF file or for a Verilog file that bytes read as can be written.
//
// A name that is no identifier of EDIF 2 0 0 (rename) stands beside one in a string; strings, numbers and ranges are those of EDIF 2 0 0
// (property, array) and of IEEE 1364-2005, 3.5, 3.6 and 12.3.3.
#![tactic(auto)]

pub mod laws;
