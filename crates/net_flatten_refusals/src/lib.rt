// What of a design breaks a rule of flattened designs.
//
// The public contract in plain words: `first_refusal` answers the first object that breaks the lower
// of the rules that a design breaks, or none. The first rule is broken by a leaf whose joined name a
// leaf before it has, in depth-first order. The second one is broken by a name of more than 1,024
// bytes: in the order of the cells of the flattened design the name of a cell, of its properties,
// its ports with their properties and its instances with theirs, and then of the properties of the
// design. The cells are not made for that, and at most two joined names are in memory at a time:
// each name has a digest, and only names of one digest are compared. A law says that where there is
// no refusal the joined names of the leaves differ and all the other names have at most 1,024 bytes.
//
// Instances, ports and properties are those of EDIF 2 0 0 (instance, port, property) and of IEEE
// 1364-2005, clause 12.
#![tactic(auto)]

pub mod digested;
pub mod digests;
pub mod laws;
pub mod long_names;
pub mod refusing;
pub mod repeats;

pub use refusing::first_refusal;
