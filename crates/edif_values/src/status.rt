// Histories of objects (EDIF 2 0 0, status).
use crate::note::Note;
use crate::written::Written;
use nl_base::Seq;

/// A part of a status.
#[derive(Drop)]
pub enum StatusItem {
    Written(Written),
    Note(Note),
}

/// The history of an object (EDIF 2 0 0, status).
#[derive(Drop)]
pub struct Status {
    pub items: Seq<StatusItem>,
}
