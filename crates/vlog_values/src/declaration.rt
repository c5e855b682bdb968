// Declarations of ports, nets and parameters (IEEE 1364-2005, 3.2, 4.10 and 12.3).
use crate::expression::{Attr, Const};
use nl_base::{BoxedList, Dir, InlineList, Range, Seq, Text};

/// The kind of net that a port declaration names.
#[derive(Clone, Copy, PartialEq, Eq)]
pub enum PortKind {
    Wire,
    Tri,
}

/// The kind of a net. The bits of a supply net are constants.
#[derive(Clone, Copy, PartialEq, Eq)]
pub enum NetKind {
    Wire,
    Tri,
    Supply0,
    Supply1,
}

/// A declaration of one port or more of one direction, kind and range.
#[derive(Drop)]
pub struct PortDecl {
    pub attrs: BoxedList<Attr>,
    pub dir: Dir,
    pub kind: Option<PortKind>,
    pub signed: bool,
    pub range: Option<Range>,
    pub names: InlineList<Text>,
}

/// A declaration of one net or more of one kind and range.
#[derive(Drop)]
pub struct NetDecl {
    pub attrs: BoxedList<Attr>,
    pub kind: NetKind,
    pub signed: bool,
    pub range: Option<Range>,
    pub names: InlineList<Text>,
}

/// The type of a parameter.
#[derive(Clone, Copy, PartialEq, Eq)]
pub enum ParamType {
    Plain { signed: bool, range: Option<Range> },
    Integer,
    Real,
}

/// A name of a parameter and its value.
#[derive(Drop)]
pub struct ParamSet {
    pub name: Text,
    pub value: Const,
}

/// A declaration of one parameter or more of one type.
#[derive(Drop)]
pub struct ParamDecl {
    pub attrs: BoxedList<Attr>,
    pub kind: ParamType,
    pub sets: Seq<ParamSet>,
}
