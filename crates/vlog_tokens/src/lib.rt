// The tokens of Verilog texts (IEEE 1364-2005, 3), read from a source in pieces of any size.
//
// The public contract in plain words: `VTokens::next` answers the next of the tokens that the whole bytes of the source spell,
// as the definition `vlog` says with no pieces and no buffer: names, keywords, numbers, reals, the digits of based literals,
// strings, attribute brackets, punctuation, symbols and directives, each as long as possible and with its place and stop; or
// the first fault of the bytes with its place, stop and reason; or that the input ends. Comments and the directives
// `timescale`, `celldefine` and `endcelldefine` are white space. Each token, fault or end that it answers has its stop within
// 268,435,456 bytes. It uses at most one byte past them, which tells that the input is longer, and holds at most 4,096 bytes
// from its place on. It takes bytes only where all that it took before are used, and none for a token whose end those show. It
// takes at most 4,096 bytes behind the stop of what it answers, and whatever it answers no more than 4,096 past the limit.
// After any error it answers `Spent`. Each token that it answers, from any source, is one that a text can have: its name, number,
// real, based digits or string is within its limits.
#![tactic(auto)]

pub mod ahead;
pub mod finding;
pub mod item;
pub mod keyword;
pub mod lexeme;
pub mod literal;
pub mod mark;
pub mod next;
pub mod number;
pub mod phase;
pub mod plain;
pub mod scan;
pub mod start;
pub mod string;
pub mod token;
pub mod tokens;
pub mod whole;

pub use keyword::is_keyword;
pub use plain::Plain;
pub use token::{VFound, VToken};
pub use tokens::VTokens;
