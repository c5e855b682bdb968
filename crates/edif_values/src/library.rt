// Libraries (EDIF 2 0 0, library, external and technology).
use crate::cell::Cell;
use crate::name::NameDef;
use crate::note::Note;
use crate::status::Status;
use nl_base::{Ident, Scaled, Seq};

/// What one number of a kind of unit is worth (EDIF 2 0 0, scale).
#[derive(Drop)]
pub struct Scale {
    pub left: Scaled,
    pub right: Scaled,
    pub unit: Ident,
}

/// A part of a library behind its technology.
#[derive(Drop)]
pub enum LibraryItem {
    Cell(Cell),
    Status(Status),
    Note(Note),
}

/// A library, or an external one (EDIF 2 0 0, library, external, technology). The notes are those of its technology.
#[derive(Drop)]
pub struct Library {
    pub external: bool,
    pub name: NameDef,
    pub scales: Seq<Scale>,
    pub notes: Seq<Note>,
    pub items: Seq<LibraryItem>,
}
