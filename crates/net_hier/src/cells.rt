// The cells of a design, as plain data.
use crate::nodes::Join;
use nl_base::{Dir, PropValue, Range, Seq, Text};

/// A property: a name and a value.
#[derive(Drop)]
pub struct HProp {
    pub name: Text,
    pub value: PropValue,
}

/// A port. One without a range is a scalar, of one bit.
#[derive(Drop)]
pub struct HPort {
    pub name: Text,
    pub range: Option<Range>,
    pub dir: Dir,
    pub props: Seq<HProp>,
}

/// An instance of the cell of this number.
#[derive(Drop)]
pub struct HInst {
    pub name: Text,
    pub cell: u32,
    pub props: Seq<HProp>,
}

/// A net of one bit.
#[derive(Drop)]
pub struct HNet {
    pub name: Text,
    pub props: Seq<HProp>,
}

/// A cell: what it shows outside, what it is made of, and which of its nodes are connected.
#[derive(Drop)]
pub struct HCell {
    pub name: Text,
    pub ports: Seq<HPort>,
    pub instances: Seq<HInst>,
    pub nets: Seq<HNet>,
    pub joins: Seq<Join>,
    pub props: Seq<HProp>,
}
