// A valid design is flattened or refused.
//
// The public contract in plain words: cells with a top from which each is reached, that name things in range and of which none reaches
// itself, are those of a valid design; and it cannot be that a valid design whose flat count is within the limit has neither a flattened
// design nor a first object that breaks a rule of flattened designs. That it has both, or two of one kind, cannot be either: this stands in
// `net_flatten_one`. Whether two terminals are connected is a relation, so nothing is said of how to find which of the two there is.
//
// A path is one instance in each of the levels of EDIF 2 0 0 (instance, cellRef) or IEEE 1364-2005, clause 12.
#![tactic(auto)]

pub mod laws;
