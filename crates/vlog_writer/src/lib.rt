// The written text of a Verilog file (IEEE 1364-2005, 12, structural).
//
// `write_vlog` puts exactly one text for each file: `vlog_text`. A module is the line of its attributes, a line with its name, its parameters and the
// names of its ports, each item on a line with two blanks of indent, and `endmodule`; where the header declares the ports, each declaration has a
// line of its own. A name is written as itself where it is a simple identifier and no keyword, else as an escaped identifier, which one blank ends.
// A based literal has its normal spelling. A string has the bytes 32 to 126 other than `"` and `\` as themselves, and escapes for all others. A line
// with `default_nettype` stands before each module at which it changes whether nets may stand without a declaration.
//
// `lay_module_start`, `lay_item` and `lay_module_end` put the lines of one module of such a text, for a text that is made item by item: the lines of
// the modules, one behind another from `true` on, are the text of their file.
//
// It answers `Ok` exactly where the sink took the whole text; else a put of the sink failed, and the sink took a front of the text. It takes no
// memory.
#![tactic(auto)]

pub mod declaration;
pub mod expression;
pub mod file;
pub mod forms;
pub mod item;
pub mod literal;
pub mod name;
pub mod statement;
pub mod string;

pub use file::{lay_module_end, lay_module_start, write_vlog};
pub use item::lay_item;
