// What a plain module means: one that declares each port in its header and each wire by itself, and whose assigns and instances stand each by
// itself (IEEE 1364-2005, 12).
//
// The public contract in plain words: the joins of a plain module are those of its assigns, and then those of its instances; its names stand
// for its ports, and each wire's for the net of its number. Where each assign and each connection leads from a port bit, a pin bit or a
// constant of a cell to its hub, the module connects these as the cell does, and where its wires have the properties of the nets of their
// classes, its nets give each bit the same values.
#![tactic(auto)]

pub mod laws;
