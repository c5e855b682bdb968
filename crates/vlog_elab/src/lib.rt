// The design of a Verilog file under a top module (IEEE 1364-2005, 12.1).
//
// The public contract in plain words: `elaborate` answers a design only where the file breaks no rule, and then its cells, its top and
// its properties are those that the file says (`vlog_design`), within the limits of a design; it answers `Refused` only where that is
// the first object of the least rule that is broken (`first_G`); and `TooBig` only where no rule is broken and the units pass the
// limit, with their number. The units are counted before a net is made. `elaborate` takes the file, and leaves each module when its cell
// is made: of the others a cell needs what they show alone, their names and ports. Want of memory is the one free answer. `check` answers
// the same without a design: that there is one, or why there is none.
#![tactic(auto)]

mod answer;
mod cells;
mod units;

pub use answer::{ResolveError, check, elaborate};
