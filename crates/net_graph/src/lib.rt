// Graphs of numbers: for each number, the numbers below it.
//
// The public contract in plain words: `reached_from` marks the numbers that steps down lead to from a start, `postorder` lists them,
// each once and after those below it, or finds that a number reaches itself, and `first_recursion` names the least number that does
// and the first place in its list from which the steps lead back. A graph is a slice of lists, and no walk over it recurses.
//
// The cells of a hierarchical design and the cells of their instances are such a graph, in EDIF 2 0 0 (cellRef) as in
// IEEE 1364-2005, clause 12 (module instances).
#![tactic(auto)]

mod below;
pub mod levels;
pub mod order;
pub mod reach;
pub mod recursion;
