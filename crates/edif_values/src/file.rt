// Designs and files (EDIF 2 0 0, design and edif).
use crate::library::Library;
use crate::name::NameDef;
use crate::note::Note;
use crate::property::Property;
use crate::status::Status;
use nl_base::{Ident, Seq};

/// A part of a design behind its cell.
#[derive(Drop)]
pub enum DesignItem {
    Property(Property),
    Status(Status),
    Note(Note),
}

/// A design: the cell that is the top of one (EDIF 2 0 0, design).
#[derive(Drop)]
pub struct Design {
    pub name: NameDef,
    pub cell: Ident,
    pub library: Ident,
    pub items: Seq<DesignItem>,
}

/// A part of a file.
#[derive(Drop)]
pub enum FileItem {
    Library(Library),
    Design(Design),
    Status(Status),
    Note(Note),
}

/// The value of an EDIF file (EDIF 2 0 0, edif). The level, the aliases and the comments of the keyword map are no part of it.
#[derive(Drop)]
pub struct EdifFile {
    pub name: NameDef,
    pub items: Seq<FileItem>,
}
