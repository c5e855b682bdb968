// Nets (EDIF 2 0 0, net).
use crate::name::NameDef;
use crate::note::Note;
use crate::property::Property;
use nl_base::{Ident, OptionalIdent, OptionalInt, Seq};

/// A reference to a port, or to a member of an array of ports, of the cell or of an instance (EDIF 2 0 0, portRef, member, instanceRef).
#[derive(Drop)]
pub struct PortRef {
    pub port: Ident,
    pub member: OptionalInt,
    pub instance: OptionalIdent,
}

/// A part of a net behind what it joins.
#[derive(Drop)]
pub enum NetItem {
    Property(Property),
    Note(Note),
}

/// A net (EDIF 2 0 0, net, joined).
#[derive(Drop)]
pub struct Net {
    pub name: NameDef,
    pub joined: Seq<PortRef>,
    pub items: Seq<NetItem>,
}
