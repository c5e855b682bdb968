// The extended BNF of Verilog (IEEE 1364-2005, Annex A), whole, and the law that files are read by
// it.
//
// `specs/Production.antt` has productions as data: tokens, sequence, choice, `[p]`, `{p}` and
// `p {"," p}`; and `Texts`, which says what tokens are a text of a production for a value. No token
// is looked at ahead, and nothing is greedy. The other files of `specs/` have the productions of
// attributes, declarations, headers, connections, instances, items, modules and the file;
// expressions and constants stand there by their own extended BNF
// (`vlog_exprs/specs/Expressions.antt`). No production has a part of the grammar that is read in
// it.
//
// Proved: the tokens that spell a value as a part that is read, by looking at one token, are
// exactly the texts that the production has for it (`HasTextsOf`); so for a file, whose modules say
// whether names in them are nets without a declaration, and for the tokens of an input up to its
// end.
#![tactic(auto)]

pub mod declarations;
pub mod items;
pub mod modules;
