// The texts, the design and the line of a generated file.
//
// The public contract in plain words: `generated_design` answers the design of the generated file of a seed and so many cells, or that memory
// ran out: of the file that the generated file's own text reads as. `generated_line` answers the line of this file, where its modules are
// given: the number of cells, of those that are swapped, of the leaves of the design, and of the bytes of the text of the modules. The laws
// say that the written text of a generated file of up to 100,000 cells has at most 268,435,456 bytes, so it is within the limit of an input,
// and that it reads as that file.
//
// Want of memory alone is answered in place of the design: no other arm of a call is reached, which is proved of each. The text of the file is
// within the limit of an input and reads as the file, the sink has room for it, the source has no fault, the file breaks no rule, and its
// design is within the limit of a design.
//
// EDIF 2 0 0: edif, library, cell, design. IEEE 1364-2005, 12.
#![tactic(auto)]

pub mod designs;
pub mod laws;
pub mod line;
mod source;
pub mod texts;

pub use designs::generated_design;
pub use line::generated_line;
