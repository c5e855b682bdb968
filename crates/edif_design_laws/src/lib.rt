// Laws of the designs of EDIF files.
//
// The public contract in plain words: the strings, numbers and ranges of the design of an EDIF file that is a value and breaks no rule are
// within the limits of both languages, of whatever size the design is. So they are of each design that `resolve` answers for such a file.
// Values of properties are those of the file; an array port has the range that its text has, of indexes of at most 2^31-1,
// or else SIZE-1:0 for a size of at most 65,536.
//
// EDIF 2 0 0: property, integer, string, number, array, rename.
#![tactic(auto)]

pub mod laws;
