// A flattened design is the design as one cell of leaf instances.
//
// The public contract in plain words: where no two leaves below the top have one joined name, which
// a design shows that breaks no rule of flattened designs, the flattened design of a valid design
// keeps what there is to keep. Its top has the name, the ports and the properties of the design's;
// its instances are the leaves below the top under their joined names, each with the name, the
// ports and the properties of its cell and the properties of the last instance of its path; and the
// top's port bits, the leaves' port bits and the two constants are connected in it exactly where
// they are connected in the design. This holds of any order of its cells.
//
// A path is one instance in each of the levels of EDIF 2 0 0 (instance, cellRef) or IEEE 1364-2005,
// clause 12.
#![tactic(auto)]

pub mod laws;
