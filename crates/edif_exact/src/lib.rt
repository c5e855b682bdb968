// Further laws of the parts of an EDIF text, in words that know no reader and no look-ahead (EDIF 2 0 0).
//
// `cursor`: the header of a file, the beginning of a form with one of some keywords and the parts of one token are read exactly as the
// other parts are, and need more as those do.
//
// `more`: where the reading of a part needs one more token, as at bytes that are no token or at the end of the input, the tokens are the
// front of a text, and no text ends before their last; and of tokens that are the front of a text, and at whose front no text stands, one
// more is needed. Nothing here says that none is needed where the tokens are themselves a text.
#![tactic(auto)]

pub mod cursor;
pub mod more;
