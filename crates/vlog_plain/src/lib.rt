// A file of plain modules that fit together (IEEE 1364-2005, 4, 5, 6 and 12).
//
// The public contract in plain words: where the modules of a file of plain modules have names of
// their own, the ports, instances and wires of each have names of their own, each expression is a
// bit of a port, a wire or a constant, each connection is of a port of a module that stands
// earlier, with one such expression for each of its bits, and the top reaches each module, the file
// breaks no rule, and each of its modules is a cell of its design, in the order of the file, with
// the ports, nets and instances that are written.
#![tactic(auto)]

pub mod laws;
