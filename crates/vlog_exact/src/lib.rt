// Further laws of the parts of a Verilog text, in words that know no reader (IEEE 1364-2005, A.1.3, A.2, A.6, A.8 and A.9.3).
//
// `cursor`: the parts of one token are read exactly as the other parts are, and need more as those do.
//
// `more`: where the reading of a part needs one more token, as at bytes that are no token or at the end of the input, the tokens are the
// front of a text, and no text ends before a token that does not go on with it. One more is needed of tokens that are the front of a text
// and at whose front no text stands, and of a text that some token goes on with.
//
// `sizes`: the one place where a token is needed that tells nothing. Behind a number that is no size no digits of a literal may stand,
// and the reading looks at the next token all the same, to refuse such digits. So where bytes that are no token follow that number, the
// readers of an expression and of a constant answer the fault of those bytes and not the number.
#![tactic(auto)]

pub mod cursor;
pub mod more;
pub mod sizes;
