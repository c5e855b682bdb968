// Properties of objects (EDIF 2 0 0, property).
use crate::name::NameDef;
use nl_base::{BoxedList, PropValue, Seq, Text};

/// What may follow the value of a property.
#[derive(Drop)]
pub enum PropTail {
    Owner(Text),
    Comment(Seq<Text>),
}

/// A property of an object (EDIF 2 0 0, property).
#[derive(Drop)]
pub struct Property {
    pub name: NameDef,
    pub value: PropValue,
    pub tail: BoxedList<PropTail>,
}
