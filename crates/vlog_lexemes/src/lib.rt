// The tokens of a Verilog text by a table of tokens, in words that know no reader (IEEE 1364-2005,
// 3 and 19).
//
// `specs/Lexemes.antt` has one predicate for each kind of token over its bytes: simple and escaped
// names, keywords, numbers, reals, based literals, strings, the marks of attributes, punctuation,
// symbols and directives. Strings are parts: bytes that stand for themselves, and escapes
// (`specs/Strings.antt`). The table says which bytes may stand directly behind each. White space
// is five bytes, comments and three directives. The next token of a text is the longest lexeme
// that stands behind its white space, where what follows it may stand there. `specs/Faults.antt`
// is the table of lexical faults, each with its reason, its place and the byte that decides it;
// `specs/Fronts.antt` has the bytes so far of a token for it.
//
// `tokens_are_lexemes`: the tokens of bytes that have no lexical fault are exactly those by the
// table, with their places and stops. `faults_are_where_no_token_stands`: those of other bytes are
// so up to the first place where neither a token nor white space stands, and a lexical fault comes
// exactly there. `faults_are_those_of_the_table`: it is the fault of the table at this place.
// `told_tokens_are_lexemes`, `told_faults_are_those_of_the_table`: a reader tells these, within
// the limit of an input. The crate has no program of its own.
#![tactic(auto)]

pub mod laws;

pub use laws::{
    faults_are_those_of_the_table, faults_are_where_no_token_stands, tokens_are_lexemes,
    told_faults_are_those_of_the_table, told_tokens_are_lexemes,
};
