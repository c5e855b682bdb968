// A design is flattened in one way.
//
// The public contract in plain words: of two valid designs with the same cells, top and properties the order of the cells is the
// same, so they are one design; they have the same refusals by the rules of flattened designs, in one order, and one flattened
// design. So whether cells are flattened, and to what, or which object is refused, is a matter of the cells, the top and the
// properties alone.
//
// A path is one instance in each of the levels of EDIF 2 0 0 (instance, cellRef) or IEEE 1364-2005, clause 12.
#![tactic(auto)]

pub mod laws;
