// Ports (EDIF 2 0 0, port).
use crate::name::PortName;
use crate::note::Note;
use crate::property::Property;
use nl_base::{Boxed, Dir, InlineList, Text};

/// A part of a port behind its name. A port has at most one direction; designators are kept and mean nothing.
#[derive(Drop)]
pub enum PortItem {
    Direction(Dir),
    Property(Boxed<Property>),
    Designator(Text),
    Note(Boxed<Note>),
}

/// A port of a cell (EDIF 2 0 0, port).
#[derive(Drop)]
pub struct Port {
    pub name: PortName,
    pub items: InlineList<PortItem>,
}
