//! Grammars of languages over tokens, as data, with their theory. There is no code to run here.
//!
//! A part of a grammar (`specs/Part.antt`) is a value, one token, one part after another, a choice by the next token, a loop,
//! or a part in another context. `Spells` (`specs/Texts.antt`) is the meaning of the extended BNF: whole lists of tokens are
//! put together, with no position, no look-ahead and nothing greedy. `read` (`specs/Reading.antt`) reads from the left and looks
//! at one token.
//!
//! Proved for each part that is live and clear (`specs/Clear.antt`): tokens spell at most one value; they have at most one
//! first fault, and none where they can go on to a text; what is read is spelled so, and each text is read; the reading stops at
//! the first token that no text has there, for the reason that the part gives; and the same of whole inputs, where the end of
//! the input is one more token (`specs/Whole.antt`, `proofs/Whole.antt`).
#![tactic(auto)]
