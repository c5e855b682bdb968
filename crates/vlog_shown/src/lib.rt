// What the modules of a Verilog file show to one another (IEEE 1364-2005, 12.3).
//
// The public contract in plain words: `interfaces_of` answers what modules show, their names, headers and declarations of ports, as
// modules of their own, `names_shown` the names of these and `scopes_shown` the tables of their names. What a module ties and its cell
// are the same by what all modules show, so the rules on two sides and the cells need no more of the other modules.
#![tactic(auto)]

pub mod interfaces;
pub mod tables;
