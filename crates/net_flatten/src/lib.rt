// A hierarchical design as one cell of leaf instances.
//
// The public contract in plain words: `flatten` answers the flattened design where the flat count is at most 2,000,000 and no rule is
// broken. It has one cell for each cell that stands at a leaf below the top and is no constant cell, with its name, ports and
// properties, in the order of the design, and then the top. The top keeps its name, ports and properties, and the design its own. The
// instances of the top are these leaves in depth-first order, each under the names of its path with `/` between them, with the
// properties of the last instance of the path. Each group of two or more connected terminals is a net, `n0`, `n1` and so on.
//
// `flatten` answers `FlatTooLarge` exactly where the flat count is above 2,000,000, with that count, and this comes first. It answers
// `Refused` exactly where a rule is broken, with the first object of the lowest broken rule. Want of memory alone has no cause.
//
// Instances, nets and properties are those of EDIF 2 0 0 (instance, net, property) and of IEEE 1364-2005, clause 12.
#![tactic(auto)]

pub mod flattening;

pub use flattening::{FlattenError, flatten};
pub use net_flatten_rules::FlattenRule;
