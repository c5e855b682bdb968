// The rules of EDIF files, and the design of a file that breaks none.
//
// The public contract in plain words: `resolve` answers a design only where the file breaks no rule, and then its cells, its top and its
// properties are those that the file says (`edif_design`), within the limits of a design; it answers `Refused` only where that is the
// first object, in file order, that breaks the lowest broken rule (`first_E`); and `TooBig` only where no rule is broken and the units
// pass the limit, with their number. Want of memory is the one free answer. `check` answers the same without a design: that there is
// one, or why there is none.
//
// The rules say when the references of EDIF 2 0 0 (cellRef, libraryRef, viewRef, portRef, instanceRef, member) mean something, and when
// the names and sizes of libraries, cells, ports, instances and nets are those of a design.
#![tactic(auto)]

mod answer;
mod below;
mod cells;
mod checking;
mod counts;
mod file;
mod library;
mod most;
mod tabled;
mod top;

pub use answer::{ResolveError, resolve};
pub use checking::check;
