// What stands where in the EDIF file of a design: which constants are missing, and the identifiers and the numbers of the cells.
//
// The public contract in plain words: `all_classes` answers the classes of connected nodes of each cell. `plan_of` answers the constants that
// some cell needs and no cell stands for, for which new cells are written, and a plan: first come the heads of these cells, and then one for
// each cell of the design, in its order; the identifiers of the cells differ up to case, and so do those of the ports of each. A constant that
// some cell needs has the number of its new cell, or of the first cell of the order that stands for it. Only want of memory keeps them from
// that.
//
// EDIF 2 0 0: cell, port, rename.
#![tactic(auto)]

pub mod classes;
pub mod constants;
pub mod heads;
pub mod numbers;
pub mod planning;

pub use classes::all_classes;
pub use constants::name_of;
pub use planning::{Planned, plan_of};
