// Views, cells, libraries, designs and the files of EDIF 2 0 0 (ANSI/EIA-548-1988).
//
// The public contract in plain words: `read_edif` answers a file only where all the bytes of the source, up to its end, read as that file
// by the grammar in `specs/Grammar.antt`; a text fault only where the bytes have that first fault, with its place and its reason; and
// `TooLong` only where more bytes are given than are looked at and no first fault lies within those. A source that fails and want of
// memory aside, it answers nothing else, and at a fault at most 4,096 bytes past its stop were taken. `laws` has it that these are three
// cases: a text reads as at most one file, has at most one first fault, and never both. Whatever the source, also one that does not tell its
// bytes, a file that is answered can be written and has at most 268,435,456 items in all its lists: each reader of a part says that its value
// can be written, and that the items in all its lists are fewer than the tokens that it took. The types and `edif_size` are those of
// `edif_values`.
//
// The readers of parts are for a text of which no file is kept: each reads as its production in `specs/Grammar.antt` says, and answers an error
// only where the tokens so far have it, or where the source fails or memory runs out; the cursor is spent then.
#![tactic(auto)]

pub mod cell;
pub mod contents;
mod design;
pub mod file;
pub mod interface;
pub mod laws;
pub mod library;
pub mod technology;
pub mod view;

pub use cell::{cell_form, cell_keywords, cell_type};
pub use contents::contents_item;
pub use edif_values::{
    Cell, CellItem, CellKind, ContentsItem, Design, DesignItem, EdifFile, FileItem, InterfaceItem,
    Library, LibraryItem, Scale, View, ViewItem, edif_size,
};
pub use file::{file_form, read_edif};
pub use interface::read_interface;
pub use library::library_form;
pub use technology::read_technology;
pub use view::{netlist, view_form, view_keywords};
