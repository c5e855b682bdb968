// First faults of Verilog texts of any length: there is one where the bytes spell no file, and its reason is one that the table of first
// faults has for its token (IEEE 1364-2005, 3 and A).
//
// `texts`: bytes of any length spell a file or have a first fault. With the laws that they spell one at most, have one at most and never
// both, they do exactly one of the two.
//
// `reasons`: a first fault is at a token or at the end, for a reason that fits it, or at bytes that are no token, for theirs; the same of
// the tokens that the readers of expressions, constants and attributes refuse. What fits is said by the token alone: the reason of the
// end, of a keyword, a symbol, a directive, a name, a real number, a string and a bracket of attributes is told. Of a number, of based
// digits and of a `{` it is one of two, and nothing here says which: whether the number stands as a bound, whether the digits stand
// behind a number that is no size, and whether the `{` is at level 65.
#![tactic(auto)]

pub mod reasons;
pub mod texts;
