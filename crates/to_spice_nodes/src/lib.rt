// The nodes of the subcircuit of a cell: one for each local class.
//
// The public contract in plain words: the node of a pin is the word of the port bit of its class;
// else that of an earlier pin of its class; else a new name: that of the first net of the class,
// where this is a SPICE word of at most 1,024 bytes that is not used, else `n` and the least number
// that is not used. Used are the words of all port bits and the nodes of the pins before, up to case.
#![tactic(auto)]

pub mod nodes;
pub mod pins;

pub use nodes::Nodes;
pub use pins::pins_of;
