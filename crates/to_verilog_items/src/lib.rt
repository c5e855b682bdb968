// The items of the module that is written for a cell, and its header (IEEE 1364-2005, 6.1, 12.1.2 and 12.3).
//
// The public contract in plain words: over a wiring of the cell, `push_assigns` adds an assign between each port bit or constant with a hub and
// this hub, where it is another; `push_instances` adds each instance, of which every port of its cell is connected, in order, to the hubs of its
// bits, and whose attributes and parameters are the last value of each of its properties; `header_of` declares the cell's ports, each by itself
// with its attributes.
#![tactic(auto)]

pub mod assigns;
pub mod connections;
pub mod exprs;
pub mod header;
pub mod instances;

pub use assigns::push_assigns;
pub use header::header_of;
pub use instances::push_instances;
