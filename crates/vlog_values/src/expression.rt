// Constants, attributes and expressions (IEEE 1364-2005, 3.5, 3.8 and 5.1.14).
use crate::literal::{Based, Literal};
use nl_base::{Boxed, Int, Scaled, Seq, Text};

/// The value of an attribute or a parameter.
#[derive(Drop)]
pub enum Const {
    Str(Text),
    Number(Int),
    /// A real, as its mantissa digits and a power of ten.
    Real(Scaled),
    Lit(Literal),
    /// A based literal without a size.
    Loose(Based),
}

/// An attribute of an object, as `(* name = value *)`. A value that is left out is the number 1.
#[derive(Drop)]
pub struct Attr {
    pub name: Text,
    pub value: Const,
}

/// The bits of a name that are meant: all, the one at an index, or those from one index to another.
#[derive(Clone, Copy, PartialEq, Eq)]
pub enum Select {
    All,
    One(i32),
    Slice(i32, i32),
}

/// An expression. Its braces are at most 64 deep, and the lists of a concatenation and a replication are not empty. The parts that would
/// make it larger than a reference stand at places of their own, since most expressions of a netlist are references.
#[derive(Drop)]
pub enum Expr {
    Ref { select: Select, name: Text },
    Lit(Boxed<Literal>),
    /// A decimal number without a size.
    LooseNumber(Int),
    /// A based literal without a size.
    Loose(Based),
    /// A concatenation, from the left.
    Cat(Seq<Expr>),
    /// A replication: how often the concatenation stands.
    Rep(Int, Boxed<Seq<Expr>>),
}
