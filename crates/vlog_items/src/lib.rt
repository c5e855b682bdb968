// The items of Verilog modules: declarations of ports, nets and parameters, assignments, instances and `defparam` (IEEE 1364-2005, A.1.3,
// A.1.4, A.2.1, A.4.1 and A.6.1).
//
// The public contract in plain words: `read_item` reads an item and the attributes before it from the tokens ahead. Its value is what their
// tokens spell by the grammar in `specs/Grammar.antt`, and what follows them is left; or it answers their first fault with its place, stop and
// reason. A source that fails and want of memory aside, it answers nothing else. The readers of lists, port words, parameter sets and types are
// public for the headers of modules, with contracts of the same kind. Also where the source tells no bytes, what they answer can be written, and
// the items in all its lists are no more than the tokens that were taken.
#![tactic(auto)]

pub mod assign;
pub mod connection;
pub mod declaration;
pub mod defparam;
pub mod instance;
pub mod item;
pub mod parameter;

pub use declaration::{read_more_names, read_port_kind, read_signed};
pub use item::{ItemWord, read_item};
pub use parameter::{read_param_set, read_param_type};
