// Names of objects and of ports, scaled numbers, and properties of objects (EDIF 2 0 0, rename, array, e and property).
//
// The public contract in plain words: `read_name` and `read_port_name` take a name from its first token on, `read_scaled` a number
// from its first token on, and `read_property` what follows the keyword of a property up to its `)`. Each takes the tokens that its
// production in `specs/Grammar.antt` spells a value with, and answers that value, or that part's first fault with its place and
// reason, as the calls of `Cursor` do. Whether or not the source tells its bytes, that value is one that can be written, and the lists of a
// property have together fewer items than tokens were taken. The types, `original` and `port_original` are those of `edif_values`.
#![tactic(auto)]

pub mod name;
pub mod number;
pub mod property;
pub mod value;

pub use edif_values::{NameDef, PortName, PropTail, Property, original, port_original};
pub use name::{read_name, read_port_name};
pub use number::read_scaled;
pub use property::read_property;
