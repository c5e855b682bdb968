// The report of a design: its leaves and the groups of connected pins over all levels, as a text.
//
// The public contract in plain words: `report` puts the line of the design, a line for each leaf
// that is no constant cell, and the groups of two or more connected terminals, where the flat count
// of the design is at most 2,000,000. Names are strings of EDIF 2 0 0 (stringToken). It answers
// `FlatTooLarge` exactly where the flat count is above 2,000,000, with that count, `Failed` where a
// put of the sink failed, after a front of the text, and `NoMemory` before anything was put: all
// memory is taken before the first byte is put. A law says that a design has one report.
#![tactic(auto)]

pub mod laws;
pub mod lines;
pub mod path;
pub mod reporting;

pub use flat_classes::{Flat, FlatFault, Spot, Terminal, flat_count};
pub use reporting::{ReportError, report};
