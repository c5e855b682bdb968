// The ports and instances of a cell that is written in EDIF.
//
// The public contract in plain words: `ports_of` makes the ports of a cell, each with its name, range, direction and the last value of each
// of its properties; the text of an array is its name and its range in square brackets. `instances_with` gives identifiers to the instances
// of a cell and to one that is added for each constant that the cell needs, under the name of the constant's cell where no instance has it,
// else under that name and the least number that is free; `instances_of` makes them, as parts of contents. Only want of memory keeps them from
// that.
//
// EDIF 2 0 0: port, direction, instance, viewRef, cellRef, libraryRef.
#![tactic(auto)]

pub mod added;
pub mod instance;
pub mod instances;
pub mod items;
pub mod ports;

pub use added::instances_with;
pub use instance::{library_ident, view_ident};
pub use instances::instances_of;
pub use items::InstanceItems;
pub use ports::{interface_of, output_port, ports_of};
