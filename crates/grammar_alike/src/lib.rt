//! Laws of grammars over tokens that are alike. There is no code to run here.
//!
//! Some tokens mean the same to every part of a grammar, as one word at two places. Where each
//! judge of a part says the same of two tokens that are alike (`specs/Alike.antt`), lists of tokens
//! that are alike, one by one, spell the same values and begin the same texts
//! (`proofs/Alike.antt`). `proofs/Living.antt` has a fact that says this of a part and, at once,
//! that tokens which can be gone on with can be gone on with by some tokens: it is asked for behind
//! the tokens that the part takes, and nowhere else.
#![tactic(auto)]
