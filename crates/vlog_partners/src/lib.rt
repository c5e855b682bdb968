// A file of plain modules that are written for the cells of a design (IEEE 1364-2005, 6.1 and 12).
//
// The public contract in plain words: where the cells of a valid design have names of their own,
// and for each cell, in the order of the design, a plain module stands in the file that has its
// ports, its instances and its properties, a hub for each local class with the properties of the
// nets of the class, an assign between each port bit or constant and its hub, and the hubs of the
// bits at each pin, the file breaks no rule, and the design of the file is the same as that design,
// cell by cell.
#![tactic(auto)]

pub mod laws;
