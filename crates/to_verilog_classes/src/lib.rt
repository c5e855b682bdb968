// The local classes of a cell that are written, and the nodes that stand for what has a hub in the module (IEEE 1364-2005, 12.3).
//
// The public contract in plain words: `Groups::of_cell` gives the local classes of a cell, and says of each whether it is written: whether it
// has two members or more among port bits, pin bits and constants, or a bit and a property of a net. `wide_ports` gives the ports of several
// bits of instances of which a bit is in such a class; `roots_of` gives the first node of each such class and each other bit of such a port.
#![tactic(auto)]

pub mod groups;
pub mod roots;

pub use groups::Groups;
