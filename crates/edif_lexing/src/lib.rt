// The tokens of a written EDIF text are those of its forms (EDIF 2 0 0, basic syntax).
//
// `text_lexes`: for each block of proper words, integers and strings, the tokens of its text are the tokens of the block, in order, and the
// text ends behind the last. It is the half of the law that a written text reads back which speaks of bytes.
#![tactic(auto)]

pub mod laws;

pub use laws::text_lexes;
