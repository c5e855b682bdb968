// Writings of objects (EDIF 2 0 0, written and timeStamp).
use crate::note::Note;
use nl_base::{Int, Seq, Text};

/// When a text was written (EDIF 2 0 0, timeStamp). The numbers are kept as they stand.
#[derive(Drop)]
pub struct Stamp {
    pub year: Int,
    pub month: Int,
    pub day: Int,
    pub hour: Int,
    pub minute: Int,
    pub second: Int,
}

/// What is told of a writing: its author, program or origin, the last two with an optional version.
#[derive(Drop)]
pub enum WrittenItem {
    Author(Text),
    Program(Text, Option<Text>),
    DataOrigin(Text, Option<Text>),
    Note(Note),
}

/// One writing of an object (EDIF 2 0 0, written).
#[derive(Drop)]
pub struct Written {
    pub stamp: Stamp,
    pub items: Seq<WrittenItem>,
}
