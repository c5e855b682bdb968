// The rules on the parts of one cell of an EDIF file, and what the references in its nets mean.
//
// The public contract in plain words: `cell_refusal` answers the first refusal, by the lowest broken rule, of what the ports, instances
// and nets of a cell break, or none. `find_port` answers where a reference in a net leads, and `spot_of` which bit it means. A
// `PortTable` and an `InstanceTable` are lists in which identifiers are looked up. Sizes of arrays count as they are written.
//
// These are references and definitions of EDIF 2 0 0 (port, array, instance, net, joined, portRef, member, instanceRef, viewRef).
#![tactic(auto)]

pub mod bits;
pub mod found;
pub mod indexes;
pub mod instances;
pub mod joined;
pub mod naming;
pub mod parts;
pub mod port_names;
pub mod ports;
pub mod references;
mod room;
pub mod sizes;
pub mod tables;
pub mod walk;

pub use bits::{BitSpot, TakenBits};
pub use found::{CellScope, find_port, member_of, spot_of};
pub use tables::{InstanceTable, PortTable};
pub use walk::cell_refusal;
