// A design as SPICE subcircuits.
//
// The public contract in plain words: `to_spice` answers the first object, in file order, that
// breaks the lowest broken rule of SPICE, exactly where one is broken, and else a file with a
// subcircuit for each cell, in the order of the design: a port for each port bit and a call for each
// instance, with one node for each local class. The design that the file says has the same pins: the
// same cells without instances, and the same port bits of these and of the top connected with one
// another. The text of the file reads as the file.
#![tactic(auto)]

pub mod subckts;
pub mod translate;

pub use translate::{SpiceError, to_spice};
