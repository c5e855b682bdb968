// What stands where in an EDIF file that is made of a design, and what each of its cells is made of.
//
// The public contract in plain words: a `Head` has the identifiers of a cell and of its ports, which differ up to case; a `Plan` has the
// head of each cell of the file, in order, and for each cell of the design, and each constant, the number of its cell in the file.
// `IsMadeCell` says what is made of one cell of the design: its ports, instances and properties under their names, an added instance
// for each constant that it needs, named after the constant's cell, and a net for each class of connected nodes that joins something, named after its first net, else its
// first port bit, else `net`.
//
// EDIF 2 0 0: cell, port, instance, net, rename.
#![tactic(auto)]

pub mod added;
pub mod head;
pub mod plan;

pub use added::{Added, Instances};
pub use head::Head;
pub use plan::Plan;
