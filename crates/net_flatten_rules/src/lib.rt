// The parts of a design that is flattened: one cell of leaf instances under their joined names.
//
// The public contract in plain words: the inner leaves are the leaves below the top that are no constant cells. The joined name of
// one is the names of the instances on the way down from the top, with `/` between them. `joined_name` makes it, and `inner_leaves`
// lists the inner leaves. `leaf_cells` lists the cells at leaves in the order of the design. `in_stub` answers the first name of a cell, its
// properties and its ports that is longer than 1,024 bytes. `specs/` has what a flattened design is, its two rules, and when two
// designs are the same but for their hierarchy.
//
// A path is one instance in each of the levels of EDIF 2 0 0 (instance, cellRef) or IEEE 1364-2005, clause 12.
#![tactic(auto)]

pub mod at_leaves;
pub mod joined;
pub mod leaves;
pub mod long;
pub mod refusal;

pub use at_leaves::leaf_cells;
pub use joined::{instance_at, joined_name};
pub use leaves::inner_leaves;
pub use long::{Long, in_props, in_stub, is_long};
pub use refusal::{Broken, FlattenRule, refuse_one, refuse_two};
