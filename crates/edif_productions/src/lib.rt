// The extended BNF of EDIF 2 0 0, and the law that files are read by it.
//
// `specs/Production.antt` has productions as data: one token, sequence, choice, `[p]`, `{p}`,
// `( keyword p )`, and the aliases that a part of a text makes for what follows it; and `Texts`,
// which says what tokens are a text of a production for a value, under some aliases. No token is
// looked at ahead, and nothing is greedy. The other files of `specs/` have the productions of EDIF,
// each as the standard's form has it.
//
// Proved: the tokens that spell a value as a part that is read, by looking at one token, under
// whatever aliases, are exactly the texts that the production has for it (`HasTextsOf`): for
// comments, names, properties, user data, notes, statuses, ports, instances, nets, interfaces,
// contents, views, cells, libraries, designs and the items of a file. The same for a header, which
// makes the aliases of what follows it, for a file, and for the tokens of an input up to its end.
#![tactic(auto)]

pub mod file;
pub mod libraries;
pub mod names;
pub mod nets;
pub mod notes;
