// First faults of EDIF texts: there is one where the bytes spell no file, and what stands before it can be gone on with by proper tokens
// (EDIF 2 0 0, edif).
//
// Bytes of any length spell a file or have a first fault. With the laws that they spell one at most, have one at most and never both,
// they do exactly one of the two.
//
// Tokens that can be gone on with to a file, by any tokens, can be gone on with by tokens as a text can have them; so a first fault, which
// is defined with any tokens behind, is that with proper tokens behind. It stands for the tokens within the limit of an input, since some
// word has to be left that is no alias. Nothing here says that those proper tokens are the tokens of some bytes, and nothing which
// reason a first fault has.
#![tactic(auto)]

pub mod texts;
