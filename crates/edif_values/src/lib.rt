// EDIF files as values: tokens, keywords, names, properties, statuses, ports, instances, nets, views, cells, libraries, designs and files
// (EDIF 2 0 0).
//
// The public contract in plain words: `spelling` answers how a keyword is spelled, and the keyword that is found by that is this one.
// `original` answers the text of a `rename`, else the identifier. `port_original` answers the base and the range of an array whose text
// is one such as `bus[7:0]` of the array's size; any other text is the array's name, with the range SIZE-1:0. `direction` answers the
// direction of a port, which goes both ways where it has none. `edif_size` counts the items of all lists of a file. Contracts see each
// struct as its fields and each enum as its variants. What the types do not keep of a file that is read or can be written stands in
// `specs/Values.antt`.
#![tactic(auto)]

pub mod cell;
pub mod file;
pub mod instance;
pub mod keyword;
pub mod library;
pub mod name;
pub mod net;
pub mod note;
pub mod original_name;
pub mod port;
pub mod port_direction;
pub mod property;
pub mod size;
pub mod status;
pub mod token;
pub mod user;
pub mod view;
pub mod written;

pub use cell::{Cell, CellItem, CellKind};
pub use file::{Design, DesignItem, EdifFile, FileItem};
pub use instance::{Instance, InstanceItem};
pub use keyword::{Keyword, is_among, same_keyword, spelling};
pub use library::{Library, LibraryItem, Scale};
pub use name::{NameDef, PortName};
pub use net::{Net, NetItem, PortRef};
pub use note::Note;
pub use original_name::{original, port_original};
pub use port::{Port, PortItem};
pub use port_direction::direction;
pub use property::{PropTail, Property};
pub use size::edif_size;
pub use status::{Status, StatusItem};
pub use token::Token;
pub use user::{UserData, UserTree};
pub use view::{ContentsItem, InterfaceItem, View, ViewItem};
pub use written::{Stamp, Written, WrittenItem};
