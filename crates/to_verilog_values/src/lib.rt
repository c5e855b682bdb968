// What a design has that breaks no rule of the Verilog target: names that can be written, names of their own, and no boolean as a parameter.
// And that its properties are then attributes and parameters that can be written (IEEE 1364-2005, 3.5 to 3.8 and 12.2).
//
// The public contract in plain words: where no rule is broken, each name of a cell, of its ports, its instances and their properties is 1 to
// 1,024 bytes of 33 to 126, no two cells have one name, no port of a cell has the name of one of its instances, and no property of an instance
// that is to be a parameter has a boolean as its last value. Properties whose names can be written and whose values are within the limits are
// attributes and values of parameters that can be written. A plain module is one of a Verilog text where its names, ranges, attributes and
// parameters are, and a bit of a port, a wire, a constant and a concatenation of such are expressions of one.
#![tactic(auto)]

pub mod laws;
