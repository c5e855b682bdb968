// Instances (EDIF 2 0 0, instance).
use crate::name::NameDef;
use crate::note::Note;
use crate::property::Property;
use nl_base::{Ident, OptionalIdent, Seq, Text};

/// A part of an instance behind its reference.
#[derive(Drop)]
pub enum InstanceItem {
    Property(Property),
    Designator(Text),
    Note(Note),
}

/// An instance of a view of a cell (EDIF 2 0 0, instance, viewRef, cellRef, libraryRef).
#[derive(Drop)]
pub struct Instance {
    pub name: NameDef,
    pub view: Ident,
    pub cell: Ident,
    pub library: OptionalIdent,
    pub items: Seq<InstanceItem>,
}
