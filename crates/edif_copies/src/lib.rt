// What an EDIF file means whose cells are made of the cells of a design.
//
// The public contract in plain words: where a file has a cell for each constant that some cell of a design needs and no cell stands for, and
// then what is made of each cell of the design, in its order, it breaks none of the rules. Each design that says what the file says has the
// same cells as that design, behind the cells of those constants, and so is the same design.
//
// EDIF 2 0 0: edif, library, cell, view, interface, contents, instance, net, joined, design.
#![tactic(auto)]

pub mod laws;
