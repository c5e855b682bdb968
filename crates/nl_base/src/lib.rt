// What every netlist crate speaks of: texts, identifiers, lists, whole numbers, bit ranges, places in a text, and why a text or a
// design is refused.
//
// The public contract in plain words: a `Text` is its bytes and a `Seq` is its list. An `Ident` is an EDIF identifier (EDIF 2 0 0,
// basic syntax) of at most 1,024 bytes. An `Int` is below 2^63 in absolute value, and each end of a `Range` below 2^31. Numbers are
// spelled in decimal. `split_range` answers the base and the range exactly where a text has the range form, as `bus[7:0]`.
// An `OptionalText`, `OptionalIdent` or `OptionalInt` is an `Option` of one, an `InlineList` and a `BoxedList` are lists, and a `Boxed` is its value, in forms that take
// less place in what has them. No call but `Text::copy`, `Text::of`, `Boxed::new` and the `push` of a list takes memory.
#![tactic(auto)]

pub mod boxed;
pub mod case;
pub mod fault;
pub mod ident;
pub mod lists;
pub mod memory;
pub mod number;
pub mod optional;
pub mod place;
pub mod range;
pub mod rule;
pub mod seq;
pub mod spelling;
pub mod split;
pub mod text;
pub mod value;

pub use boxed::Boxed;
pub use case::fold_eq;
pub use fault::{ReadError, Reason, TextFault};
pub use ident::{Ident, is_identifier};
pub use lists::{BoxedList, InlineList};
pub use memory::NoMemory;
pub use number::{Int, Scaled};
pub use optional::{OptionalIdent, OptionalInt, OptionalText};
pub use place::Place;
pub use range::Range;
pub use rule::{Refusal, Rule};
pub use seq::Seq;
pub use spelling::spell_u64;
pub use split::split_range;
pub use text::Text;
pub use value::{Dir, PropValue};
