// Verilog files as values: literals, constants, expressions, declarations, statements and modules (IEEE 1364-2005, 12), as structural
// netlists have them, and what based literals stand for (3.5.1).
//
// The public contract in plain words: `vlog_size` counts the items of all lists of a file. `bits_of` answers the bits of a literal from
// the left, as many as its size says: each binary, octal or hexadecimal digit gives 1, 3 or 4 of them and a decimal those of its value;
// the left is filled with 0, x or z, and the leftmost bits are dropped where there are too many. `literal_of` answers a literal exactly
// where a text is its normal spelling. Contracts see each struct as its fields and each enum as its variants. What the types do not keep
// of a file that is read or can be written stands in `specs/Values.antt`.
#![tactic(auto)]

pub mod bits;
pub mod declaration;
pub mod digits;
pub mod expression;
pub mod literal;
pub mod module;
pub mod size;
pub mod spelled;
pub mod statement;

pub use bits::{Bits, FilledBits, bits_of, filled_bits_of};
pub use declaration::{NetDecl, NetKind, ParamDecl, ParamSet, ParamType, PortDecl, PortKind};
pub use expression::{Attr, Const, Expr, Select};
pub use literal::{Base, Based, Bit, Literal};
pub use module::{Header, ItemV, Module, VlogFile};
pub use size::vlog_size;
pub use spelled::literal_of;
pub use statement::{Assignment, Assigns, Conns, DefSet, Defparams, Instances, NamedConn, VInst};
