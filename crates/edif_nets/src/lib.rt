// Ports, instances and nets of EDIF 2 0 0.
//
// The public contract in plain words: each read call goes on behind the keyword of its form and takes the form up to its `)`. It answers the
// value that the tokens spell, or the form's first fault with its place and reason; a source that fails and want of memory aside, it answers
// nothing else. A port has at most one direction, and one that has none goes both ways. A net keeps what it joins in the order of the text, each
// reference with its member and its instance (EDIF 2 0 0, port, instance and net). Whether or not the source tells its bytes, the value is one
// that can be written, and its lists have together fewer items than tokens were taken. The types and `direction` are those of `edif_values`.
#![tactic(auto)]

pub mod instance;
pub mod net;
pub mod port;

pub use edif_values::{Instance, InstanceItem, Net, NetItem, Port, PortItem, PortRef, direction};
pub use instance::read_instance;
pub use net::read_net;
pub use port::{read_designator, read_port};
