// The cells of a flattened design: those of the leaves below the top, and the top as one cell of leaf instances.
//
// The public contract in plain words: `flat_cells` answers the cells that stand at leaves below the top, in the order of the design,
// each with its name, ports and properties alone, and then the top. The top keeps its name, ports and properties. Its instances are
// the leaves in depth-first order, each under its joined name, of its cell, with the properties of the last instance of its path. Its
// nets are the groups of two or more connected terminals, `n0`, `n1` and so on, each joined to the terminals of its group in order.
// Nothing but want of memory keeps `flat_cells` from this. The places of cells and leaves are looked up in tables.
//
// Cells, instances, nets and joined terminals are those of EDIF 2 0 0 (cell, instance, net, joined) and of IEEE 1364-2005, clause 12.
#![tactic(auto)]

pub mod cells;
pub mod copies;
pub mod instances;
pub mod nets;
pub mod places;
pub mod stubs;

pub use cells::flat_cells;
