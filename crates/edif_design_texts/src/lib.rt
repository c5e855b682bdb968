// Laws of the designs of texts of EDIF files. Laws alone.
//
// The public contract in plain words: the strings, numbers and ranges of each design that `resolve` answers for a file that bytes read as are
// within the limits of both languages, of whatever size the design is.
//
// EDIF 2 0 0: edif, design, cell.
#![tactic(auto)]

pub mod laws;
