// The constants, attributes and expressions of Verilog (IEEE 1364-2005, A.2.5, A.8 and A.9.1), and a cursor that reads the parts of a text.
//
// The public contract in plain words: each call reads one part of the grammar from the tokens ahead, whatever the pieces of the source: its
// value is what the part's tokens spell, and what follows them is left. Or it answers that part's first fault with its place, stop and reason.
// A source that fails and want of memory aside, it answers nothing else. An expression has at most 64 braces in one another, a size is 1 to
// 65,536, and a bound at most 2^31-1. Of every source, also of one that tells no bytes, what is answered can be written again, and the items
// in all its lists are at most as many as tokens were taken. A cursor that has answered any error answers `Spent` from then on. The grammar
// that is read has the texts that the extended BNF has for expressions and constants (`laws`), and is live and clear (`proofs/Live`,
// `proofs/Clear`).
#![tactic(auto)]

pub mod attr;
pub mod bound;
pub mod constant;
pub mod cursor;
pub mod expr;
pub mod glance;
pub mod laws;
mod lists;
pub mod reasons;
pub mod seq;
pub mod start;
pub mod steps;

pub use attr::read_attrs;
pub use bound::{read_bound, read_range, read_range_if_any};
pub use constant::read_const;
pub use cursor::VCursor;
pub use expr::{read_expr, read_expr_if_any};
pub use glance::Glance;
pub use seq::{fitted, seq_with_room};
pub use start::{ConstStart, ExprStart};
