// The cells of a design, made of the modules of a Verilog file.
//
// The public contract in plain words: `cell_of` answers the cell that a module is: its ports in the order of the header, its instances
// in the order of the text with the values that `defparam` gives them, a net for each bit of its wires, a join for each two bits that
// are connected, assigned or tied to a supply, and its attributes as properties (IEEE 1364-2005, 3.8, 4, 6.1 and 12). It takes the
// module, and leaves each of its statements when its instances and joins are made, in pieces that stand where statements were.
// Where it is told that a declaration declares each net, it makes no table to find those without one.
#![tactic(auto)]

pub mod cell;
pub mod groups;
pub mod instances;
pub mod mentions;
pub mod nets;
mod parts;
mod pieces;
mod pins;
pub mod ports;
pub mod properties;

pub use cell::cell_of;
