// What is the same design as a flattened one is flat too.
//
// The public contract in plain words: where a second design is a first one as one cell of leaf
// instances, and a third is the same design as the second and its top has no instances but leaves,
// the third is the first one as one cell of leaf instances. It is so where the third is the same as
// the second cell by cell, and then it need not be said of its top. So the text of a flattened
// design keeps what the flattened design keeps.
//
// A path is one instance in each of the levels of EDIF 2 0 0 (instance, cellRef) or IEEE 1364-2005,
// clause 12.
#![tactic(auto)]

pub mod laws;
