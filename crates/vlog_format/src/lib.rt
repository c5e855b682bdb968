// The normal text of a Verilog file, made while the file is read (IEEE 1364-2005, 12 and 19.2).
//
// The public contract in plain words: `format_vlog` reads a source as `read_vlog` of `vlog_modules` does, with its errors, and answers the text
// that `write_vlog` of `vlog_writer` has for the file that it reads. A text is answered only where all the bytes of the source, up to its end,
// read as a file; where they do not, the first fault is answered and no text.
//
// Neither the file nor a module is ever whole in memory: each item is dropped when its line is made. `FileText` is that text, made item by item:
// `begin` takes a module up to its items, `add` takes each item, `end` ends the module, and `finish` answers the text of the file of these modules,
// or that memory ran out.
#![tactic(auto)]

pub mod format;
pub mod text;

pub use format::format_vlog;
pub use text::FileText;
