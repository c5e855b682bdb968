// Instances, assignments and `defparam` (IEEE 1364-2005, 6.1, 12.1.2 and 12.2.1).
use crate::declaration::ParamSet;
use crate::expression::{Attr, Const, Expr};
use nl_base::{BoxedList, Seq, Text};

/// A connection of a port by its name; without a value the port is open.
#[derive(Drop)]
pub struct NamedConn {
    pub port: Text,
    pub value: Option<Expr>,
}

/// The connections of an instance: by name, or in the order of the ports. A list in order is never one lone open connection.
#[derive(Drop)]
pub enum Conns {
    Named(Seq<NamedConn>),
    Order(Seq<Option<Expr>>),
}

/// An instance.
#[derive(Drop)]
pub struct VInst {
    pub name: Text,
    pub conns: Conns,
}

/// A statement that makes one instance or more of one module, with the values of parameters.
#[derive(Drop)]
pub struct Instances {
    pub attrs: BoxedList<Attr>,
    pub module: Text,
    pub params: BoxedList<ParamSet>,
    pub insts: BoxedList<VInst>,
}

/// An assignment of the right side to the left.
#[derive(Drop)]
pub struct Assignment {
    pub left: Expr,
    pub right: Expr,
}

/// A statement of one assignment or more.
#[derive(Drop)]
pub struct Assigns {
    pub attrs: BoxedList<Attr>,
    pub sets: Seq<Assignment>,
}

/// A value for a parameter of an instance.
#[derive(Drop)]
pub struct DefSet {
    pub instance: Text,
    pub name: Text,
    pub value: Const,
}

/// A statement that gives one parameter or more their values.
#[derive(Drop)]
pub struct Defparams {
    pub attrs: BoxedList<Attr>,
    pub sets: Seq<DefSet>,
}
