// The tables of the modules of a Verilog file (IEEE 1364-2005, 4.5, 4.11, 12.1 and 12.3).
//
// The public contract in plain words: `scope_of` answers the table of the ports and nets of a module, and `declared_scope` also whether
// it is seen that a declaration declares each net; `library_of` answers the modules of a design by their names with their ports,
// `Redeclared` is the rule that a port that is declared again as a net has the same range, and `first_recursion` answers the first
// instance through which a module reaches itself. `undeclared_names` and `table_with` answer the names that a module uses without a
// declaration, and the table of what it declares with these, for a module whose statements stand apart.
#![tactic(auto)]

mod entries;
pub mod implicit;
mod known;
pub mod library;
pub mod lists;
mod new_table;
pub mod parts;
pub mod ranged;
pub mod recursion;
pub mod redeclared;
pub mod scopes;
pub mod targets;
