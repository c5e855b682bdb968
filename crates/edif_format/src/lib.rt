// The normal text of an EDIF file, made while the file is read (EDIF 2 0 0, edif).
//
// The public contract in plain words: `format_edif` reads a source as `read_edif` of `edif_library` does, with its errors, and answers the text
// that `write_edif` of `edif_writer` has for the file that it reads. A text is answered only where all the bytes of the source, up to its end,
// read as a file; where they do not, the first fault is answered and no text.
//
// Neither the file nor a library, a cell or its contents is ever whole in memory: the lines of each part are put when it is read, and of the forms
// around it only those before it are. An instance, a net, an interface and a technology are read whole.
//
// The lines of a form stand two blanks further in than those of the form around it: those of a library at 2, of a cell at 4, of a view at 6, of
// contents at 8, and of what is in these at 10.
#![tactic(auto)]

mod cell;
pub mod file;
mod library;
mod part;
mod view;

pub use file::format_edif;
