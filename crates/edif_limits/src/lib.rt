// Laws of EDIF texts and the limit of an input: what reads, where the first fault is and what is cut, said by all tokens of a text
// (EDIF 2 0 0, edif).
//
// Bytes read as a file exactly where they spell it and are within the limit; a first fault is answered exactly where it is that of all
// tokens and its stop is within the limit; bytes are cut exactly where they are longer and each of their first faults has its stop past
// the limit. The first token that no file has there, after the tokens before it, is a first fault, for some reason.
//
// Nothing here says that bytes which spell no file have a first fault.
#![tactic(auto)]

pub mod texts;
