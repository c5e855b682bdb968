// Laws of grammars of any language, for the crates of laws of both: lemmas alone, over the definitions of `grammar`.
//
// `proofs/Existing.antt`: the first token with which tokens cannot go on to a text is refused for some reason.
// `proofs/Ending.antt`: a whole text ends with the end of the input, and has no other where its part takes none.
// `proofs/Refusing.antt`: a fact that holds wherever a part refuses a token holds of what the reading refuses, and a fact that holds of
// each token that a part takes holds of all tokens of its texts.
// `proofs/GoingOn.antt`, `proofs/Agreeing.antt`: where tokens of which a fact holds lead from each place of a part to its end, tokens that
// can be gone on with can be gone on with by such tokens.
// `proofs/Opening.antt`: where the reading of a part needs one more token.
#![tactic(auto)]
