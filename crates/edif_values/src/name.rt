// Names of objects and of ports (EDIF 2 0 0, rename and array).
use nl_base::{Ident, Int, OptionalText};

/// The name of an object: an identifier, and the text that a `rename` gives it (EDIF 2 0 0, rename).
#[derive(Drop)]
pub struct NameDef {
    pub ident: Ident,
    pub text: OptionalText,
}

/// The name of a port: of a scalar, or of an array with its size (EDIF 2 0 0, array).
#[derive(Drop)]
pub enum PortName {
    Single(NameDef),
    Array(NameDef, Int),
}
