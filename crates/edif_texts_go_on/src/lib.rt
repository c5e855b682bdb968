// Texts of EDIF that go on: what can be gone on with to a file by any tokens is gone on with by
// some text (EDIF 2 0 0, basic syntax and edif).
//
// The crate `edif_faults` says that tokens at the front of a text go on to a file by any tokens
// exactly where they do so by tokens as a text can have them. Here such tokens are those of some
// bytes; so the tokens go on exactly where some text does that begins with the very bytes of the
// front, up to the end of its last token, and is a file. In particular what stands before a first
// fault goes on so.
//
// The front lies within the limit of an input. The text that goes on may be longer; where it is
// not, it reads as the file.
#![tactic(auto)]

pub mod texts;
