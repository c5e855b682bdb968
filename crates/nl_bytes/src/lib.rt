// A reader of the bytes of a source, on which the token readers of both languages stand.
//
// `Bytes` takes from a source up to 4,096 bytes at a time, and only where it holds none. It shows
// the bytes that it holds and the place of the first: `peek` answers the byte ahead, `advance`
// uses it, and `run` and `skip` use all bytes of a class. Each call says which bytes were used:
// they stood at the front of what was held and what the source had left, and the place went past
// them, and bytes were taken only where all those taken before are used. At most one byte past
// 268,435,456 is answered and used, which tells that the input is longer, and no more than 4,096
// bytes past it are ever taken from the source. `Class` has the classes of bytes of which tokens of
// EDIF 2 0 0 and of Verilog (IEEE 1364-2005, 3) have runs, each a bit in a table. `specs/Tokens.antt`
// has what a reader of tokens over such bytes answers, in any language (`ReadsToken`).
#![tactic(auto)]

pub mod bytes;
pub mod class;
pub mod halt;

pub use bytes::{Bytes, LIMIT};
pub use class::Class;
pub use halt::Halt;
