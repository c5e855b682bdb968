// The tokens of an EDIF text by a table of tokens, in words that know no reader (EDIF 2 0 0, basic
// syntax).
//
// `specs/Lexemes.antt` has one predicate for each kind of token over its bytes: a parenthesis, a
// word, an integer with its sign, and a string, whose parts are bytes that stand for themselves
// and escapes with the numbers of bytes (`specs/Strings.antt`). The next token of a text is the
// longest lexeme that stands behind its white space, where what follows it may stand there and it
// is within the limits of a token. `specs/Faults.antt` is the table of lexical faults, each with
// its reason, its place and the byte that decides it.
//
// `tokens_are_lexemes`: the tokens of some bytes are exactly those by the table, with their places
// and stops, and so is how they end: at the end, or at the fault of the table at the first place
// where no token stands. `told_tokens_are_lexemes`: so is what the reader of tokens tells, within
// the limit of an input. `faults_are_where_no_token_stands`: bytes that begin with no white space
// have a lexical fault exactly where no token stands at their front. The crate has no program of
// its own.
#![tactic(auto)]

pub mod laws;

pub use laws::{faults_are_where_no_token_stands, tokens_are_lexemes, told_tokens_are_lexemes};
