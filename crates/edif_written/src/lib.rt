// What an EDIF file with one library means, part by part.
//
// The public contract in plain words: where the identifiers of the cells of such a file differ up to case, a reference with the
// identifier of a cell means that cell, and the file breaks none of the rules E1 to E12 where none of its cells does. The lemmas
// below tell the parts of a written cell, the bits that its references mean, and that the joins of its nets are stars.
//
// EDIF 2 0 0: edif, library, cell, view, interface, contents, net, joined, portRef.
#![tactic(auto)]

pub mod laws;
