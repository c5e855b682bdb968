// The cells of an EDIF file, made of the cells of a design.
//
// The public contract in plain words: `cell_of` makes what is written for a cell of the design: its ports, instances and properties under
// their names, an added instance for each constant that the cell needs, and a net for each class of connected nodes that joins something,
// which joins its port bits and pin bits and the pins of the constants, and has the name of its first net, else of its first port bit, else
// `net`. `new_cell` makes the cell of a constant. Only want of memory keeps them from that. Of the other cells of the design `cell_of` needs the
// ports alone, and of the cell itself its name and ports: what the cell is made of stands apart, and its joins are not needed.
//
// Memory: the nets are made straight into the contents of the cell. The classes are left before, of which the nodes of the live ones alone are
// kept, and so are the instances of the design, of which the numbers of their cells are.
//
// EDIF 2 0 0: cell, view, interface, contents, net, joined, portRef, member, instanceRef.
#![tactic(auto)]

pub mod cell;
pub mod contents;
pub mod made;
pub mod members;
pub mod nets;
pub mod refs;
mod room;

pub use cell::new_cell;
pub use made::cell_of;
