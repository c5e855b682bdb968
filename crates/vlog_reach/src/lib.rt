// The modules of a Verilog file that are reached from the top (IEEE 1364-2005, 12.1).
//
// The public contract in plain words: `graph_of` answers, for each module, the numbers of the modules of its instances, one for each
// instance whose module is there, and `reached_modules` the top and all modules that instances lead to from it, in file order.
#![tactic(auto)]

pub mod reach;

pub use reach::{graph_of, reached_modules};
