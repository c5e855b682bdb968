// The instances of a cell that is written.
use nl_base::{Ident, Seq, Text};

/// An instance that is added for a constant: which one, and the name of the instance.
#[derive(Drop)]
pub struct Added {
    pub value: bool,
    pub name: Text,
}

/// The identifiers of the instances of a cell, its own and then those that are added; and the instances that are added.
#[derive(Drop)]
pub struct Instances {
    pub idents: Seq<Ident>,
    pub added: Seq<Added>,
}
