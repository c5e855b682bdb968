// Views of cells (EDIF 2 0 0, view, interface and contents).
use crate::instance::Instance;
use crate::name::NameDef;
use crate::net::Net;
use crate::note::Note;
use crate::port::Port;
use crate::property::Property;
use crate::status::Status;
use nl_base::{Boxed, InlineList, Seq, Text};

/// A part of an interface.
#[derive(Drop)]
pub enum InterfaceItem {
    Port(Port),
    Property(Property),
    Designator(Text),
    Note(Note),
}

/// A part of the contents of a view.
#[derive(Drop)]
pub enum ContentsItem {
    Instance(Instance),
    Net(Net),
    Note(Note),
}

/// A part of a view behind its interface. A view has at most one contents.
#[derive(Drop)]
pub enum ViewItem {
    Contents(Seq<ContentsItem>),
    Property(Boxed<Property>),
    Status(Status),
    Note(Boxed<Note>),
}

/// A view of a cell, of the type NETLIST (EDIF 2 0 0, view, interface, contents).
#[derive(Drop)]
pub struct View {
    pub name: NameDef,
    pub interface: Seq<InterfaceItem>,
    pub items: InlineList<ViewItem>,
}
