// What is odd about the connections of a design over all levels: sinks that nothing drives, and
// drivers that are connected to one another.
//
// The public contract in plain words: the terminals are the top's port bits, the pins of the leaves
// that are no constant cells, and the two constants. An input of the top, an output of a leaf and a
// constant drive; an output of the top and an input of a leaf are sinks; all others go both ways. A
// sink is floating where it is connected to no other terminal, and undriven where it is connected to
// another one, to no driver and to none that goes both ways. Drivers are several where all those
// that are connected to one terminal are two or more. `lint` puts exactly these, in the order of a
// report, where the flat count of the design is at most 2,000,000. It answers `FlatTooLarge` exactly
// where the flat count is above 2,000,000, with that count, `Failed` where a put of the sink failed,
// after a front of the text, and `NoMemory` before anything was put: all memory is taken before the
// first byte is put. A law says that a design has one such text.
//
// Directions are those of EDIF 2 0 0 (direction) and IEEE 1364-2005, 12.3.3.
#![tactic(auto)]

pub mod drivers;
pub mod findings;
pub mod laws;
pub mod linting;
pub mod role;

pub use linting::{LintError, lint};
