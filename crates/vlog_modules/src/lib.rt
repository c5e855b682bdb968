// Headers, modules and files of structural Verilog (IEEE 1364-2005, A.1.2, A.1.3 and 19).
//
// The public contract in plain words: `read_vlog` answers a file only where all the bytes of the source, up to its end, read as that
// file by the grammar in `specs/Grammar.antt`; a text fault only where the bytes have that first fault, with its place and its reason;
// and `TooLong` only where more bytes are given than are looked at and no first fault lies within those. A source that fails and want of
// memory aside, it answers nothing else, and at a fault at most 4,096 bytes past its stop were taken. Also where the source tells no
// bytes, the file is one that can be written, with at most 268,435,456 items in all its lists. `laws` has it that these are three cases:
// a text reads as at most one file, has at most one first fault, and never both; and that the grammar has the texts of the extended BNF
// in `specs/Productions.antt`. A file can also be read item by item, so that neither its modules nor their items need all be kept: `at_piece`
// looks whether a directive or a module is next, `read_beginning` reads the directive or the module up to its items, and `at_item` looks whether
// an item is next; the laws `piece_loops` in `proofs/Pieces.antt`, `in_two` in `proofs/Beginnings.antt` and `item_loops` in `proofs/Items.antt` have
// it that loops over these read what the grammar has for a file.
#![tactic(auto)]

mod file;
mod header;
pub mod laws;
mod module;
mod parameter;

pub use file::{Piece, at_piece, read_beginning, read_vlog};
pub use module::at_item;
