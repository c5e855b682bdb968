// The flat classes of a hierarchical design: which port bits of the top and of the leaves are
// connected over all levels.
//
// The public contract in plain words: `flat_count` is the sum, over all paths with the empty one
// among them, of one and the port bits and nets of the cell there. Where it is at most 2,000,000,
// `Flat::of` lists the top and every path in depth-first order (`spots`), the leaves that are no
// constant cells, and the terminals: the top's port bits, the pins of the leaves and the two
// constants. Two terminals have one `group` exactly where a list of flat steps connects them.
// `members` answers for each group the places of its terminals, which lie one behind the other.
//
// A path is one instance in each of the levels of EDIF 2 0 0 (instance, cellRef) or IEEE 1364-2005,
// clause 12.
#![tactic(auto)]

pub mod flat;
mod groups;
mod kinds;
pub mod laws;
pub mod members;
mod terminals;

pub use flat::{FLAT_LIMIT, Flat, FlatFault, Terminal};
pub use flat_numbers::{Spot, flat_count};
pub use members::Members;
