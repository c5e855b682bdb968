// What the cells of an EDIF file mean that are made of the cells of a design.
//
// The public contract in plain words: where the cells of a file stand as a plan says, what is made of a cell of a design breaks none of
// the rules on its ports, its instances and its nets, and so the file none of E1 to E12. It connects port bits, pin bits and constants as
// the cell does, where the pin of an added instance stands for its constant, and its nets give each bit the same values of properties. It
// is the same cell as its partner, where the cells of the constants that it needs are such and the other cells have the plan's numbers.
//
// EDIF 2 0 0: port, instance, net, joined, portRef, member, instanceRef.
#![tactic(auto)]

pub mod laws;
