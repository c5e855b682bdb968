// What the names and the expressions of a Verilog module mean, and what a file is as a design (IEEE 1364-2005, 4 to 6 and 12).
//
// The public contract in plain words: a `Table` is the list of the ports and nets of a module with what they stand for, and `NameSet` a
// list of names that differ. `Runs` are bits from the left, of which those that are nothing take no room. `expr_width` answers how many
// bits an expression has, `push_bits` its port bits, nets and constants from the left, `push_joins` and `push_node_joins` the joins of
// two sides, and `uses_in` the names in the expressions of a module. The definitions say what the design of a file is (`vlog_design`),
// and which objects break its rules (`first_G`).
#![tactic(auto)]

pub mod bits;
pub mod joins;
pub mod names;
pub mod node_joins;
mod rows;
pub mod runs;
pub mod signals;
pub mod table;
pub mod uses;
pub mod widths;
