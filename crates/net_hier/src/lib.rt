// A hierarchical design: cells with ports, instances of other cells, nets and joins.
//
// The public contract in plain words: a `Hier` is valid, `cells_fit` tells whether cells are as in one, and `Hier::build` makes one
// of such cells, or names the first cell that reaches itself, or tells how many units are too many. The definitions say when two
// nodes of a cell are connected, when they are connected over all paths of a design, and when two designs are the same, as a whole
// or cell by cell; `laws::same_cells_give_same_design` proves the one from the other.
//
// The cells and nets are those that EDIF 2 0 0 (libraries, cells, views of type NETLIST) and IEEE 1364-2005, clause 12
// (hierarchical structures), share.
#![tactic(auto)]

pub mod build;
pub mod cells;
pub mod constants;
pub mod fit;
pub mod graph;
pub mod hier;
pub mod laws;
pub mod names;
pub mod nodes;
pub mod units;

pub use build::BuildFault;
pub use cells::{HCell, HInst, HNet, HPort, HProp};
pub use constants::{ConstName, Constants};
pub use fit::cells_fit;
pub use hier::{Hier, HierParts};
pub use nodes::{Join, Node};
