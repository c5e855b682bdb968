// Laws of reach: the marks by which rules and designs say what is reached are those of the relation, by steps from one to the next.
//
// `graphs`: a number is marked exactly where steps down lead to it from the start.
//
// `modules`: the modules of a Verilog file that are reached from a top, in file order; one module reaches another; the first instance
// through which a module reaches itself (IEEE 1364-2005, 12.1).
//
// `cells`: the cells of an EDIF file that are reached from its top (EDIF 2 0 0, design, instance, viewRef, cellRef).
#![tactic(auto)]

pub mod cells;
pub mod graphs;
pub mod modules;
