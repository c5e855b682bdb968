// The cells of a design, made of the cells of an EDIF file.
//
// The public contract in plain words: `cell_of` answers the value of a cell: its ports, instances and nets in the order of the text and
// under their original names, a join for each reference that a net lists, and the properties of the cell, its interface and its view.
// `push_properties` adds the properties of a design.
//
// The parts are those of EDIF 2 0 0 (cell, view, interface, contents, rename, property).
#![tactic(auto)]

pub mod cell;
pub mod joins;
pub mod parts;
pub mod properties;

pub use cell::cell_of;
pub use properties::push_properties;
