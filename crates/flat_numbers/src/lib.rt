// The nodes of a hierarchical design over all its paths, as numbers, and which of them are linked.
//
// The public contract in plain words: `flat_count` is the sum, over all paths with the empty one
// among them, of one and the port bits and nets of the cell there, or 2^64-1 where it is larger.
// `tables_of` lists the top and every path in depth-first order (the spots) and gives each port bit
// and each net of each spot a number; a pin bit has the number of the port bit one level down. The
// joins of these numbers are, for each spot, the links of its cell and the pins of its instances of
// constant cells. `join_labels` answers for each number the least number that joins link to it; it
// links each join where it finds it, so that there is no list of all joins. The law
// `numbers_connected` says that numbers are linked exactly where their nodes are connected. Nothing
// recurses: the walk keeps a stack, and a design of 100,000 levels takes one place of it.
#![tactic(auto)]

pub mod counts;
pub mod joins;
pub mod linked;
pub mod numbers;
pub mod spots;
pub mod tables;
pub mod walk;

pub use counts::flat_count;
pub use spots::Spot;
