// The nodes of one cell: which of its nodes are locally connected, whether it is a leaf or stands for a constant, and names that are free in it.
//
// The public contract in plain words: `Adjacency` has the joined nodes of a cell in order and, for each, the numbers of the nodes at the
// other ends of its joins; `Classes` gives two joined nodes one number exactly where they are locally connected, counts the classes in the
// order of their least nodes, lists the nodes of each in order, and takes at most one step for each joined node and two for each join;
// `is_leaf` and `constant_of` answer what the definitions of net_hier say; `Names` is a set, up to case where it was made so,
// `digest` is a number that is the same for names that are alike, and `fresh_name` answers the least number whose name is not in a set; `Word` puts short words together without memory; `groups_of` lists the
// places of a list by the numbers that stand there.
//
// Nets join ports and pins as in EDIF 2 0 0 (net, joined) and as ports, nets and continuous assignments do in IEEE 1364-2005, clauses 6 and 12.
#![tactic(auto)]

pub mod adjacency;
pub mod classes;
mod ends;
mod flood;
pub mod fresh;
mod joined;
pub mod leaf;
pub mod names;
pub mod parts;
pub mod steps;
pub mod word;

pub use adjacency::Adjacency;
pub use classes::Classes;
pub use fresh::fresh_name;
pub use leaf::{constant_of, is_leaf};
pub use names::{Names, digest};
pub use steps::Steps;
pub use word::Word;
