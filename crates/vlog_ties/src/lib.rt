// What is tied to what in a Verilog module: connections, assignments and supply nets (IEEE 1364-2005, 4.6.6, 6.1 and 12.3).
//
// The public contract in plain words: `ties_of` answers what a module ties, one tie for each connection of a port, each assignment and
// each name of a supply net, in the order of the text and without bits. `push_ties` adds the joins of ties, bit by bit, and
// `push_item_joins` those of an item; `join_count` answers how many these are before any is made. `sides_of` answers the first connection or
// assignment whose two sides have two widths and the first with an unsized literal, as refusals, or nothing exactly where the rule is
// kept, the bits of all left sides, which no count of joins passes, and whether some name in an expression is no port and no net or some
// select means no bits.
#![tactic(auto)]

pub mod connections;
pub mod counts;
pub mod expressions;
pub mod joins;
pub mod rules;
pub mod sides;
pub mod tie;
pub mod ties;
