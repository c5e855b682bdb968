// The rules that a design has to keep to be written as SPICE subcircuits.
//
// The public contract in plain words: `first_refusal` answers the first object, in the order of the
// design's parts, that breaks the lowest broken rule, or nothing exactly where no rule is broken.
// S1: the name of a cell, the word of each port bit and the name of an instance are SPICE words. S2:
// no two cells are alike up to case. S3: no two port bits of a cell are. S4: no two instances of a
// cell are. S5: no two port bits of a cell are locally connected. S6: no cell connects a constant to
// a port bit, a pin bit or the other constant.
#![tactic(auto)]

pub mod again;
pub mod connections;
pub mod first;
pub mod laws;
pub mod names;
pub mod refusal;
pub mod words;

pub use first::first_refusal;
pub use refusal::{SpiceRefusal, SpiceRule};
pub use words::words_of;
