// Laws of Verilog texts in words that know no reader, no look-ahead and no limit of an input (IEEE 1364-2005, A.1.2, A.2, A.6 and A.8).
//
// `parts`: the readers of parts answer what their production reads as from the left, with one token of look-ahead (`Reads` on their calls).
// For the productions named there tokens read as a value only where they begin with a text of it that the next token does not go on with, and
// so wherever a text stands; one text has one value at most; and a token is refused, for a reason, exactly where the tokens before it go
// on to a text, with it they go on to none, and none that stands before it is complete without looking at it.
//
// `texts`: bytes of any length spell at most one file, have at most one first fault, and never both.
#![tactic(auto)]

pub mod parts;
pub mod texts;
