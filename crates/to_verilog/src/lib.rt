// A design as a Verilog file (IEEE 1364-2005, 12).
//
// The public contract in plain words: `to_verilog` answers the first object of the lowest rule that the design breaks, exactly where it breaks
// one, and else a file that breaks no rule under the name of the design's top. Each design that says what the file says is the same as the
// design, cell by cell, and so as a whole, whichever cells stand for the constants. The file can be written, where the values of the design
// are within their limits: strings of at most 1,048,576 bytes, and numbers and bounds as their types keep them.
//
// `module_of` answers a plain module for a cell (IEEE 1364-2005, 6.1 and 12): its header declares the cell's ports, each by itself; its wires
// are those of a wiring of the cell; an assign stands between each port bit or constant with a hub and this hub, where it is another; each
// instance connects every port of its cell, in order, to the hubs of its bits; and each object has the last value of each of its properties.
// So it is a module that is written for the cell, where no port has the name of an instance and no boolean is to be a parameter: what the law
// of files that are written for a design asks of each of its modules.
#![tactic(auto)]

pub mod modules;
pub mod translate;

pub use modules::module_of;
pub use translate::{TargetError, to_verilog};
