// What an EDIF file means: original names, references, the rules of EDIF files, and the design of a file.
//
// The public contract in plain words: a `FileTables` is a file. `link` answers the number of the cell that a cellRef and its libraryRef mean,
// exactly, or the first object by which they break a rule, and `means_view` whether a viewRef means a view of a cell, each by a look-up. The
// definitions say what the crates above prove: the parts of a file in the order of the text (`specs/Parts.antt`), what references mean
// (`specs/References.antt`), which cells are reached (`specs/Reach.antt`), the objects that break each rule, as lists in file order
// (`specs/CellRules.antt`, `specs/FileRules.antt`), and the design of a file that breaks none (`specs/Design.antt`).
//
// EDIF 2 0 0 has the forms: library, external, cell, view, interface, contents, instance, net, joined, portRef, instanceRef, member, viewRef,
// cellRef, libraryRef and design. Where it leaves a choice, `docs/DECISIONS.md` has the one made here.
#![tactic(auto)]

pub mod links;
pub mod tables;
pub mod views;

pub use links::Linked;
pub use tables::{FileTables, PlacedCell};
