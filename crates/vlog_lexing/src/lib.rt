// The tokens of a written Verilog text are those of its forms (IEEE 1364-2005, 3).
//
// `text_lexes`: for all lines whose names, keywords, numbers, literals and strings are such, and of which no two touch, the tokens of their text
// are the tokens of the lines, in order, and the text ends behind the last. It is the half of the law that a written text reads back which speaks
// of bytes.
#![tactic(auto)]

pub mod laws;

pub use laws::text_lexes;
