// Texts of Verilog that go on: what can be gone on with to a file by any tokens is gone on with by
// some text (IEEE 1364-2005, 3 and A).
//
// Tokens can be gone on with to a file, by any tokens, exactly where they can be so by tokens that
// bytes can spell: names, numbers, literals and strings within their limits, words that are
// keywords, bytes of punctuation, symbols and directives. Such tokens are those of some bytes, and
// each token of a text of bytes, within the limit of an input, is such. So the tokens at the front
// of bytes of any length go on exactly where some text does that begins with the very bytes of the
// front, up to the end of its last token, and is a file. In particular what stands before a first
// fault goes on so.
//
// Where the text that goes on is within the limit of an input, it reads as the file.
#![tactic(auto)]

pub mod texts;
