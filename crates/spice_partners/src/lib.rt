// Subcircuits that are written for the cells of a design, and the design that a SPICE file says.
//
// The public contract in plain words: the design of a file of subcircuits has a cell for each, with a
// scalar port for each port word, the last one as its top, and a net for each different word, up to
// case. Where a design keeps the rules of SPICE and a file has, in the order of the design, a
// subcircuit for each cell, with its name, the words of its port bits and a call for each instance,
// whose words are alike exactly where the bits are locally connected, the design of the file has the
// same pins: the same cells without instances, and the same port bits of these and of the top
// connected with one another.
#![tactic(auto)]

pub mod laws;
