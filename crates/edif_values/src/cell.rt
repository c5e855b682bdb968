// Cells (EDIF 2 0 0, cell).
use crate::name::NameDef;
use crate::note::Note;
use crate::property::Property;
use crate::status::Status;
use crate::view::View;
use nl_base::Seq;

/// The type of a cell. Ties and rippers mean what generic cells mean.
#[derive(Clone, Copy, PartialEq, Eq)]
pub enum CellKind {
    Generic,
    Tie,
    Ripper,
}

/// A part of a cell behind its type. A cell has at most one view.
#[derive(Drop)]
pub enum CellItem {
    View(View),
    Property(Property),
    Status(Status),
    Note(Note),
}

/// A cell of a library (EDIF 2 0 0, cell).
#[derive(Drop)]
pub struct Cell {
    pub name: NameDef,
    pub kind: CellKind,
    pub items: Seq<CellItem>,
}
