// The rules of a Verilog file under a top module (IEEE 1364-2005, 4.5, 4.11, 12.1, 12.2 and 12.3), all of them in their order.
//
// The public contract in plain words: `check_file` answers `Refused` only with the first object of the least rule that is broken
// (`first_G`), and `Clean` only where no rule is broken; then the modules are those that are reached from the top, in file order, with
// their names and what they show to one another, the number is that of the top among them, and the bits of their ports and nets and of
// the left sides of all that is tied are told, which no count of units passes, and so is, where it is seen, that a declaration declares
// each of their nets. Want of memory is the one free answer. The rules that need the table of a module's names are tried on one module
// after the other, and each table is left before the next is made; the others are tried together on each module, and rule by rule only
// where one is broken.
#![tactic(auto)]

pub mod check;
mod looks;
mod modules;
pub mod tables;
mod together;

pub use check::{Checked, CleanModules, check_file};
