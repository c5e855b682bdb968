// The rules that the modules of a Verilog design have to keep (IEEE 1364-2005, 4.5, 4.11, 5.2, 12.2 and 12.3).
//
// The public contract in plain words: for each of these rules a call answers the first object, in file order, that breaks it, as a
// refusal that names the rule, the module and the object, or nothing exactly where the rule is kept: a module of the top's name, one
// module of each name, modules of instances, declarations, directions, names in expressions, selects, named connections, connections
// in order, widths, parameters of a statement, ranges that are declared twice, and `defparam`. A pass tries a rule on all modules.
#![tactic(auto)]

pub mod connections;
pub mod counts;
pub mod declared;
pub mod defparams;
pub mod directions;
mod kinds;
pub mod library;
pub mod lists;
pub mod module_rules;
pub mod modules;
mod name_digests;
pub mod noting;
pub mod passes;
pub mod redeclared;
pub mod refusals;
pub mod repeats;
pub mod selects;
pub mod statements;
pub mod unknown_names;
pub mod wide;
pub mod wrong_uses;
